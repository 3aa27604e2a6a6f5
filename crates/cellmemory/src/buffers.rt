// Working buffers of the largest sizes.
ghost use Rattle.lists.specs.Buffers.{Long};

use block::buffers::MOST_CELLS;
use lists::buffers::buffer;

// Room for the largest memory: in long interleaving five slots, a byte for each cell.
pub fn memory_buffer() -> [u8; 5 * MOST_CELLS]
    ensures { Long 30590 result }
{
    buffer(0)
}

// Room for the places of a row's cells, and one number more.
pub fn row_buffer() -> [u16; MOST_CELLS + 1]
    ensures { Long 6119 result }
{
    buffer(0)
}
