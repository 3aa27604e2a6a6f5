// Buffers that are long enough for all settings.
ghost use Rattle.std.specs.Prelude.{◌≡◌, ◌≤◌, length, replicate, pos};
ghost use Rattle.jobs.specs.Clauses.{Numbers};

use block::buffers::{MOST_CELLS, MOST_NUMBERS};
use deskcells::numbers::take_cells;

// Five slots in long interleaving, a byte for each cell.
pub const MOST_MEMORY: usize = 5 * MOST_CELLS;

// The most numbers of an SDC block: 846 cells, of mode A with occupancy 5.
pub const MOST_SDC_NUMBERS: usize = 2 * 846;

// The most of a super frame's MSC cells: three frames and two fillers.
pub const MOST_MSC_NUMBERS: usize = 3 * MOST_NUMBERS + 4;

// The most of a grid, which are more than those of a super frame's cells: 45 symbols of 461 carriers, of mode A with occupancy 5, three numbers a place.
pub const MOST_GRID_NUMBERS: usize = 3 * 45 * 461;

// Their bytes.
pub const MOST_GRID_BYTES: usize = 2 * MOST_GRID_NUMBERS;

// A buffer of bytes, of the length that its type says. It is made here, so that the proofs of its users do not write it out.
pub fn bytes<const N: usize>() -> [u8; N]
    ensures { result ≡ replicate N 0 }
{
    [0; N]
}

// The same of numbers.
pub fn numbers<const N: usize>() -> [i16; N]
    ensures { result ≡ replicate N (pos 0) }
{
    [0; N]
}

// The numbers of bytes, at the start of a buffer.
pub fn numbers_in(bytes: &[u8]) -> [i16; MOST_GRID_NUMBERS]
    requires { length bytes.now ≤ 124470 }
    ensures { Numbers bytes.now result }
{
    let mut cells = numbers::<MOST_GRID_NUMBERS>();
    take_cells(bytes, &mut cells);
    cells
}
