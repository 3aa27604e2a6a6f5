// Blocks of a kind, up to three, each read into its own place. 01 "Buffers and state" and "Operations".
// Stays, in this module: cells and bytes are the caller's; docs/PROMISES.md names `read_several`, which is lent them one by one, and with a struct of `&mut` a
// clause must also say that each reference is still the same one.
ghost use Rattle.blockcoder.specs.Clauses.{Enough};
ghost use Rattle.blockreader.specs.Clauses.{SeveralLent, SeveralRead};

use crate::lent::read_lent;
use block::Block;
use block::buffers::{
    MOST_BITS, MOST_NUMBERS, MOST_PLACES, SMALL_BITS, SMALL_CELLS, SMALL_NUMBERS, SMALL_PLACES,
};
use blockcoder::work::Work;
use blockplaces::tables::{Order, block_places};
use lists::buffers::buffer;
use multilevel::places::bit_count;

// So many blocks, whose cells stand one after the other: whether bits give each, true in a place without a block; their bytes are written.
fn read_each<const BITS: usize, const NUMBERS: usize>(
    work: &mut Work<BITS, NUMBERS>,
    many: usize,
    cells: &[i16],
    bytes: &mut [u8],
) -> [bool; 3]
    requires { SeveralLent work.old.order.block many cells.now bytes.old }
    ensures { SeveralRead work.old.order.block many cells.now bytes.old result bytes.new }
{
    let mut numbers: [i16; NUMBERS] = buffer(0);
    let again = &mut numbers[..];
    let k = work.order.block;
    let n = 2 * k.cells;
    let m = bit_count(k).div_ceil(8);
    let mut given = [true; 3];
    for i in 0..many {
        let at = n * i;
        let to = m * i;
        given[i] = read_lent(
            work,
            &cells[at..at + n],
            &mut again[0..n],
            &mut bytes[to..to + m],
        );
    }
    given
}

// The same, with a table of places and working buffers of these sizes, which serve all of them.
fn read_within<const PLACES: usize, const BITS: usize, const NUMBERS: usize>(
    k: Block,
    many: usize,
    cells: &[i16],
    bytes: &mut [u8],
) -> [bool; 3]
    requires { SeveralLent k many cells.now bytes.old × Enough k PLACES BITS NUMBERS }
    ensures { SeveralRead k many cells.now bytes.old result bytes.new }
{
    let mut places: [u16; PLACES] = buffer(0);
    block_places(k, &mut places);
    let mut work: Work<BITS, NUMBERS> = Work {
        order: Order {
            block: k,
            places: &places,
        },
        bits: buffer(0),
        labels: buffer(0),
        coded: buffer(0),
    };
    read_each(&mut work, many, cells, bytes)
}

// So many blocks, whose cells stand one after the other: whether bits give each, true in a place without a block; their bytes are written.
pub fn read_several(k: Block, many: usize, cells: &[i16], bytes: &mut [u8]) -> [bool; 3]
    requires { SeveralLent k many cells.now bytes.old }
    ensures { SeveralRead k many cells.now bytes.old result bytes.new }
{
    if k.cells <= SMALL_CELLS {
        return read_within::<SMALL_PLACES, SMALL_BITS, SMALL_NUMBERS>(k, many, cells, bytes);
    }
    read_within::<MOST_PLACES, MOST_BITS, MOST_NUMBERS>(k, many, cells, bytes)
}
