// The calls drm_lengths and drm_sizes.
ghost use Rattle.std.specs.Prelude.{◌≡◌};
ghost use Rattle.settingbytes.specs.Numbers.{yielded, lengths_bytes, sizes_bytes};

// N1, N2, L1, L2 and L_VSPP of ten bytes of settings.
#[unsafe(no_mangle)]
pub extern "C" fn drm_lengths(settings: &[u8], lengths: &mut [u16]) -> u8
    ensures { yielded result lengths.new ≡ lengths_bytes settings.now lengths.old }
{
    drmcoder::numbers::drm_lengths(settings, lengths)
}

// The bytes of SDC and MSC, the numbers of FAC, SDC and MSC cells, and the bytes of memory.
#[unsafe(no_mangle)]
pub extern "C" fn drm_sizes(settings: &[u8], sizes: &mut [u32]) -> u8
    ensures { yielded result sizes.new ≡ sizes_bytes settings.now sizes.old }
{
    drmcoder::numbers::drm_sizes(settings, sizes)
}
