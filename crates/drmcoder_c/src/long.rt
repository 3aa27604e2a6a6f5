// The call drm_how_long. 02, S-14.
// Stays, in this module: the parameters are those of the C functions, in their order.
ghost use Rattle.std.specs.Prelude.{◌≡◌};
ghost use Rattle.howlong.specs.HowLong.{how_long_yield};
ghost use Rattle.drmcoder.specs.HowLong.{how_long_bytes};

// Super frames with the closing, bytes of memory, and zero bits after the last byte, for so many bytes.
#[unsafe(no_mangle)]
pub extern "C" fn drm_how_long(settings: &[u8], bytes: u32, numbers: &mut [u32]) -> u8
    ensures { how_long_yield result numbers.new ≡ how_long_bytes settings.now bytes numbers.old }
{
    drmcoder::long::drm_how_long(settings, bytes, numbers)
}
