// The sizes of hold files as the numbers that a caller lends, for a caller outside that has the refusal as a byte. Nothing here calls it.
ghost use Rattle.std.specs.Prelude.{◌≡◌, length};
ghost use Rattle.settingbytes.specs.Numbers.{yielded};
ghost use Rattle.holdbytes.specs.Holds.{file_sizes_into};
ghost use Rattle.holdbytes.specs.Numbered.{numbered_sizes};

use crate::holds;
use holdfile::FileSizes;
use refusal::answer;
use settingbytes::numbered::Numbered;

// The sizes of files into the caller's numbers, which a refusal leaves as they were.
// Stays: `put_sizes` calls another function; one function for both would take a closure over the numbers.
#[tactic(auto, unfolding(crate::specs::Holds::file_sizes_into))]
pub fn put_hold_sizes(z: Numbered<FileSizes>, numbers: &mut [u32]) -> u8
    requires { length numbers.old ≡ 2 }
    ensures { yielded result numbers.new ≡ file_sizes_into (numbered_sizes z) numbers.old }
{
    match z.refusal {
        0 => answer(holds::put_hold_sizes(Ok(z.values), numbers)),
        number => number,
    }
}
