// The calls on FAC blocks: drm_fac_build and drm_fac_read (02, S-1), drm_fac_nearest (02, S-9).
// Stays, in this module: the parameters are those of the C functions, in their order.
ghost use Rattle.std.specs.Prelude.{◌≡◌};
ghost use Rattle.refusal.specs.Numbers.{answer};
ghost use Rattle.facfields.specs.Build.{build_yield};
ghost use Rattle.facfields.specs.Read.{read_yield};
ghost use Rattle.nearest.specs.Fac.{nearest_yield, nearest_of};
ghost use Rattle.drmcoder.specs.Fac.{build_bytes, read_fields};

use facfields::calls::{build, read};
use nearest::fac::fac_nearest;
use refusal::{Refusal, answer};
use settingbytes::bytes::taken;

// An FAC block from fourteen fields.
#[tactic(auto, unfolding(crate::specs::Fac::build_bytes, settingbytes::specs::Bytes::taken))]
fn build_bytes(settings: &[u8], fields: &[u32], block: &mut [u8]) -> Result<(), Refusal>
    ensures { build_yield (answer result) block.new ≡ build_bytes settings.now fields.now block.old }
{
    build(taken(settings)?, fields, block)
}

// The same by its number for C.
pub fn drm_fac_build(settings: &[u8], fields: &[u32], block: &mut [u8]) -> u8
    ensures { build_yield result block.new ≡ build_bytes settings.now fields.now block.old }
{
    answer(build_bytes(settings, fields, block))
}

// The fourteen fields of an FAC block.
#[tactic(auto, unfolding(crate::specs::Fac::read_fields, settingbytes::specs::Bytes::taken))]
fn read_fields(settings: &[u8], block: &[u8], fields: &mut [u32]) -> Result<(), Refusal>
    ensures { read_yield (answer result) fields.new ≡ read_fields settings.now block.now fields.old }
{
    read(taken(settings)?, block, fields)
}

// The same by its number for C.
pub fn drm_fac_read(settings: &[u8], block: &[u8], fields: &mut [u32]) -> u8
    ensures { read_yield result fields.new ≡ read_fields settings.now block.now fields.old }
{
    answer(read_fields(settings, block, fields))
}

// 130 received values in the order of the mapped cells to the nearest FAC block and its number of disagreements.
pub fn drm_fac_nearest(received: &[u8], block: &mut [u8], disagreement: &mut [u16]) -> u8
    ensures { nearest_yield result block.new disagreement.new
        ≡ nearest_of received.now block.old disagreement.old }
{
    answer(fac_nearest(received, block, disagreement))
}
