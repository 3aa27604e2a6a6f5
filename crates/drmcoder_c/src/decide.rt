// The calls drm_decide_fac, drm_decide_sdc and drm_decide_msc. 02, S-10.
// Stays, in this module: the parameters are those of the C functions, in their order.
ghost use Rattle.std.specs.Prelude.{◌≡◌};
ghost use Rattle.measured.specs.declared.Channel.TheVariants.{Fac, Sdc, Msc};
ghost use Rattle.measured.specs.Calls.{decide_yield};
ghost use Rattle.measured.specs.Bytes.{decide_bytes};

// Measured FAC cells to points and bits.
#[unsafe(no_mangle)]
pub extern "C" fn drm_decide_fac(
    settings: &[u8],
    kinds: &[u8],
    values: &[f32],
    points: &mut [i16],
    bits: &mut [u8],
) -> u8
    ensures { decide_yield result points.new bits.new
        ≡ decide_bytes Fac settings.now kinds.now values.now points.old bits.old }
{
    drmcoder::decide::drm_decide_fac(settings, kinds, values, points, bits)
}

// Measured SDC cells to points and bits.
#[unsafe(no_mangle)]
pub extern "C" fn drm_decide_sdc(
    settings: &[u8],
    kinds: &[u8],
    values: &[f32],
    points: &mut [i16],
    bits: &mut [u8],
) -> u8
    ensures { decide_yield result points.new bits.new
        ≡ decide_bytes Sdc settings.now kinds.now values.now points.old bits.old }
{
    drmcoder::decide::drm_decide_sdc(settings, kinds, values, points, bits)
}

// Measured MSC cells to points and bits.
#[unsafe(no_mangle)]
pub extern "C" fn drm_decide_msc(
    settings: &[u8],
    kinds: &[u8],
    values: &[f32],
    points: &mut [i16],
    bits: &mut [u8],
) -> u8
    ensures { decide_yield result points.new bits.new
        ≡ decide_bytes Msc settings.now kinds.now values.now points.old bits.old }
{
    drmcoder::decide::drm_decide_msc(settings, kinds, values, points, bits)
}
