// The sizes of a grid as the numbers that a caller lends, for a caller outside that has the refusal as a byte. Nothing here calls it.
ghost use Rattle.std.specs.Prelude.{◌≡◌, length};
ghost use Rattle.settingbytes.specs.Numbers.{yielded};
ghost use Rattle.grid.specs.Calls.{grid_sizes_into};
ghost use Rattle.grid.specs.Numbered.{numbered_sizes};

use crate::{GridSizes, calls};
use refusal::answer;
use settingbytes::numbered::Numbered;

// The sizes into the caller's numbers, which a refusal leaves as they were.
// Stays: `put_sizes` calls another function; one function for both would take a closure over the numbers.
#[tactic(auto, unfolding(crate::specs::Calls::grid_sizes_into))]
pub fn put_grid_sizes(z: Numbered<GridSizes>, numbers: &mut [u32]) -> u8
    requires { length numbers.old ≡ 3 }
    ensures { yielded result numbers.new ≡ grid_sizes_into (numbered_sizes z) numbers.old }
{
    match z.refusal {
        0 => answer(calls::put_grid_sizes(Ok(z.values), numbers)),
        number => number,
    }
}
