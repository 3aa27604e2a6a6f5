// The calls on FAC blocks: drm_fac_build and drm_fac_read (02, S-1), drm_fac_nearest (02, S-9).
// Stays, in this module: the parameters are those of the C functions, in their order.
ghost use Rattle.std.specs.Prelude.{◌≡◌};
ghost use Rattle.facfields.specs.Build.{build_yield};
ghost use Rattle.facfields.specs.Read.{read_yield};
ghost use Rattle.nearest.specs.Fac.{nearest_yield, nearest_of};
ghost use Rattle.drmcoder.specs.Fac.{build_bytes, read_fields};

// An FAC block from fourteen fields.
#[unsafe(no_mangle)]
pub extern "C" fn drm_fac_build(settings: &[u8], fields: &[u32], block: &mut [u8]) -> u8
    ensures { build_yield result block.new ≡ build_bytes settings.now fields.now block.old }
{
    drmcoder::fac::drm_fac_build(settings, fields, block)
}

// The fourteen fields of an FAC block.
#[unsafe(no_mangle)]
pub extern "C" fn drm_fac_read(settings: &[u8], block: &[u8], fields: &mut [u32]) -> u8
    ensures { read_yield result fields.new ≡ read_fields settings.now block.now fields.old }
{
    drmcoder::fac::drm_fac_read(settings, block, fields)
}

// 130 received values in the order of the mapped cells to the nearest FAC block and its number of disagreements.
#[unsafe(no_mangle)]
pub extern "C" fn drm_fac_nearest(received: &[u8], block: &mut [u8], disagreement: &mut [u16]) -> u8
    ensures { nearest_yield result block.new disagreement.new
        ≡ nearest_of received.now block.old disagreement.old }
{
    drmcoder::fac::drm_fac_nearest(received, block, disagreement)
}
