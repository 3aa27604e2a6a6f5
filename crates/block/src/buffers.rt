// Sizes of buffers for the largest block and for a small one, each from those before it: to clear those of the largest takes longer than to code or
// read an FAC block.
ghost use Rattle.lists.specs.Buffers.{Long};

use lists::buffers::buffer;

// The most cells of a block: N_MUX of mode A with occupancy 5.
pub const MOST_CELLS: usize = 6118;

// Their coordinates, real and imaginary.
pub const MOST_NUMBERS: usize = 2 * MOST_CELLS;

// The most bits of a block: 64-QAM has six coded bits a cell, and a block has fewer bits than coded ones.
pub const MOST_BITS: usize = 6 * MOST_CELLS;

// A place for each coded bit, and one number more.
pub const MOST_PLACES: usize = MOST_BITS + 1;

// The most bits, packed.
pub const MOST_BYTES: usize = (MOST_BITS + 7) / 8;

// The most bytes of an SDC block: 1,680 bits, of mode A with occupancy 5 in 16-QAM.
pub const MOST_SDC_BYTES: usize = 210;

// Room for the packed bytes of three multiplex frames.
pub const MOST_MSC_BYTES: usize = 3 * MOST_BYTES;

// The most cells of a small block: an SDC block of mode A with occupancy 5; an FAC block has fewer.
pub const SMALL_CELLS: usize = 846;

pub const SMALL_NUMBERS: usize = 2 * SMALL_CELLS;

pub const SMALL_BITS: usize = 6 * SMALL_CELLS;

pub const SMALL_PLACES: usize = SMALL_BITS + 1;

// The bits of a block.
pub fn bit_buffer() -> [u8; MOST_BITS]
    ensures { Long 36708 result }
{
    buffer(0)
}

// The same, packed.
pub fn byte_buffer() -> [u8; MOST_BYTES]
    ensures { Long 4589 result }
{
    buffer(0)
}

// The coordinates of all cells.
pub fn coordinate_buffer() -> [i16; MOST_NUMBERS]
    ensures { Long 12236 result }
{
    buffer(0)
}
