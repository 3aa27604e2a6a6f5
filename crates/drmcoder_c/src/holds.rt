// The calls on hold files: drm_hold_sizes, drm_to_new and drm_to_old. 02, S-7.
ghost use Rattle.std.specs.Prelude.{◌≡◌};
ghost use Rattle.holdlines.specs.declared.Form.TheVariants.{Old, New};
ghost use Rattle.holdfile.specs.Convert.{convert_yield};
ghost use Rattle.settingbytes.specs.Numbers.{yielded};
ghost use Rattle.holdbytes.specs.Holds.{hold_sizes_bytes, convert_bytes};

// The bytes of an old and of a new file.
#[unsafe(no_mangle)]
pub extern "C" fn drm_hold_sizes(settings: &[u8], sizes: &mut [u32]) -> u8
    ensures { yielded result sizes.new ≡ hold_sizes_bytes settings.now sizes.old }
{
    drmcoder::holds::drm_hold_sizes(settings, sizes)
}

// An old file to its new form.
#[unsafe(no_mangle)]
pub extern "C" fn drm_to_new(settings: &[u8], oldfile: &[u8], newfile: &mut [u8]) -> u8
    ensures { convert_yield result newfile.new ≡ convert_bytes Old settings.now oldfile.now newfile.old }
{
    drmcoder::holds::drm_to_new(settings, oldfile, newfile)
}

// A new file to its old form.
#[unsafe(no_mangle)]
pub extern "C" fn drm_to_old(settings: &[u8], newfile: &[u8], oldfile: &mut [u8]) -> u8
    ensures { convert_yield result oldfile.new ≡ convert_bytes New settings.now newfile.now oldfile.old }
{
    drmcoder::holds::drm_to_old(settings, newfile, oldfile)
}
