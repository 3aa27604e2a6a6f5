// The calls on hold files: drm_hold_sizes, drm_to_new and drm_to_old. 02, S-7.
ghost use Rattle.std.specs.Prelude.{◌≡◌};
ghost use Rattle.refusal.specs.Numbers.{answer};
ghost use Rattle.holdlines.specs.declared.Form.TheVariants.{Old, New};
ghost use Rattle.holdfile.specs.Convert.{convert_yield};
ghost use Rattle.settingbytes.specs.Numbers.{yielded};
ghost use Rattle.holdbytes.specs.Holds.{hold_sizes_bytes, convert_bytes};

use holdbytes::holds::{convert_file, put_hold_sizes};
use holdfile::convert;
use holdlines::Form;
use refusal::{Refusal, answer};
use settingbytes::bytes::taken;

// The bytes of an old and of a new file.
#[tactic(auto, unfolding(holdbytes::specs::Holds::hold_sizes_bytes, settingbytes::specs::Bytes::taken))]
fn hold_sizes_bytes(settings: &[u8], sizes: &mut [u32]) -> Result<(), Refusal>
    ensures { yielded (answer result) sizes.new ≡ hold_sizes_bytes settings.now sizes.old }
{
    let s = taken(settings)?;
    if sizes.len() != 2 {
        return Err(Refusal::FixedLength);
    }
    put_hold_sizes(convert::sizes(s), sizes)
}

// The same by its number for C.
pub fn drm_hold_sizes(settings: &[u8], sizes: &mut [u32]) -> u8
    ensures { yielded result sizes.new ≡ hold_sizes_bytes settings.now sizes.old }
{
    answer(hold_sizes_bytes(settings, sizes))
}

// An old file to its new form.
pub fn drm_to_new(settings: &[u8], oldfile: &[u8], newfile: &mut [u8]) -> u8
    ensures { convert_yield result newfile.new ≡ convert_bytes Old settings.now oldfile.now newfile.old }
{
    answer(convert_file(Form::Old, settings, oldfile, newfile))
}

// A new file to its old form.
pub fn drm_to_old(settings: &[u8], newfile: &[u8], oldfile: &mut [u8]) -> u8
    ensures { convert_yield result oldfile.new ≡ convert_bytes New settings.now newfile.now oldfile.old }
{
    answer(convert_file(Form::New, settings, newfile, oldfile))
}
