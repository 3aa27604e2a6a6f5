// The sizes of hold files, and turning one form into the other, with the bytes that a caller lends. 02, S-7.
ghost use Rattle.std.specs.Prelude.{◌≡◌, length};
ghost use Rattle.refusal.specs.Numbers.{answer};
ghost use Rattle.holdfile.specs.Convert.{convert_yield, file_sizes_yield};
ghost use Rattle.settingbytes.specs.Numbers.{yielded};
ghost use Rattle.holdbytes.specs.Holds.{file_sizes_into, convert_bytes};

use holdfile::{FileSizes, convert};
use holdlines::Form;
use refusal::Refusal;
use settingbytes::bytes::taken;

// The sizes of files into the caller's numbers, which a refusal leaves as they were.
#[tactic(auto, using(refusal::proofs::Positive::number_positive), unfolding(crate::specs::Holds::file_sizes_into))]
pub fn put_hold_sizes(sizes: Result<FileSizes, Refusal>, numbers: &mut [u32]) -> Result<(), Refusal>
    requires { length numbers.old ≡ 2 }
    ensures { yielded (answer result) numbers.new ≡ file_sizes_into (file_sizes_yield sizes) numbers.old }
{
    let z = sizes?;
    numbers.copy_from_slice(&[z.old, z.new]);
    Ok(())
}

// A file of either form to the other.
#[tactic(auto, unfolding(crate::specs::Holds::convert_bytes, settingbytes::specs::Bytes::taken))]
pub fn convert_file(form: Form, settings: &[u8], file: &[u8], out: &mut [u8]) -> Result<(), Refusal>
    ensures { convert_yield (answer result) out.new ≡ convert_bytes form settings.now file.now out.old }
{
    convert::convert(form, taken(settings)?, file, out)
}
