// A block: packed bytes to cells. 01 "From bits to cells".
// Stays, in this module: what codes one block is lent labels and coded bits one by one, since `code_bits` has its caller's bits beside them, and no `Work`;
// with a struct of `&mut` a clause must also say that each reference is still the same one.
ghost use Rattle.std.specs.Prelude.{◌≡◌, true, false, ◌*◌};
ghost use Rattle.block.specs.Levels.{streams};
ghost use Rattle.block.specs.Mapping.{mapped, woven};
ghost use Rattle.block.specs.Block.{levels_of, points_of, one_axis, cells_from};
ghost use Rattle.blockcoder.specs.Clauses.{cells_by, cells_of_each, CodesParts, CodesBits, BlocksLent, Enough, PartsLeft, BitsLeft, WorkLeft};
ghost use Rattle.block.specs.Fits.{BlockLent, HasRoom, WorkLent};

use crate::work::Work;
use block::Block;
use block::buffers::{
    MOST_BITS, MOST_NUMBERS, MOST_PLACES, SMALL_BITS, SMALL_CELLS, SMALL_NUMBERS, SMALL_PLACES,
};
use blockplaces::tables::{Order, block_places};
use cellparts::parts::{map_axes_parts, map_parts};
use dispersal::parts::unpack_parts;
use lists::buffers::buffer;
use multilevel::code::code_levels;
use multilevel::places::{Part, bit_count, bits_before};

// Levels whose bits go alternately to the real and the imaginary axis.
fn code_both(order: Order, a: &[u8], b: &[u8], labels: &mut [u8], coded: &mut [u8], out: &mut [i16])
    requires { CodesParts order.block a.now b.now labels.old coded.old out.old × (one_axis order.block ≡ false) }
    ensures out_after { let k = order.entry.block in out.new ≡ mapped (points_of k) (2 * k.cells) (streams (levels_of k) a.now b.now) }
    ensures parts_left { PartsLeft order.entry.block a.now b.now labels.old coded.old labels.new coded.new }
{
    let k = order.block;
    let n = out.len();
    code_levels(k, 0, order.places, a, b, coded, &mut labels[0..n]);
    map_parts(k.constellation, k.parta, &labels[0..n], out);
}

// Levels in pairs: the first of each for the real axis, the second for the imaginary one, whose labels stand behind those of the real one.
fn code_axes(order: Order, a: &[u8], b: &[u8], labels: &mut [u8], coded: &mut [u8], out: &mut [i16])
    requires { CodesParts order.block a.now b.now labels.old coded.old out.old × (one_axis order.block ≡ true) }
    ensures out_after { let k = order.entry.block in out.new ≡ mapped (points_of k) (2 * k.cells) (woven (streams (levels_of k) a.now b.now)) }
    ensures parts_left { PartsLeft order.entry.block a.now b.now labels.old coded.old labels.new coded.new }
{
    let k = order.block;
    let n = k.cells;
    code_levels(k, 0, order.places, a, b, coded, &mut labels[0..n]);
    code_levels(k, 1, order.places, a, b, coded, &mut labels[n..2 * n]);
    map_axes_parts(
        k.constellation,
        k.parta,
        &labels[0..n],
        &labels[n..2 * n],
        out,
    );
}

// The dispersed bits of a block to its cells, by the places of its coded bits: part A's bits stand first.
fn code_streams(order: Order, bits: &[u8], labels: &mut [u8], coded: &mut [u8], out: &mut [i16])
    requires { CodesBits order.block bits.now out.old × HasRoom order.block labels.old coded.old }
    ensures out_after { out.new ≡ cells_by order.entry.block bits.now }
    ensures bits_left { BitsLeft order.entry.block bits.now labels.old coded.old labels.new coded.new }
{
    let k = order.block;
    let at = bits_before(k, Part::A, k.count);
    if k.one_axis() {
        code_axes(order, &bits[0..at], &bits[at..], labels, coded, out);
        return;
    }
    code_both(order, &bits[0..at], &bits[at..], labels, coded, out);
}

// The same, with places and working buffers of its own.
pub fn code_bits(k: Block, bits: &[u8], out: &mut [i16])
    requires { CodesBits k bits.now out.old }
    ensures { out.new ≡ cells_by k bits.now }
{
    let mut places: [u16; MOST_PLACES] = buffer(0);
    let mut labels: [u8; MOST_NUMBERS] = buffer(0);
    let mut coded: [u8; MOST_NUMBERS] = buffer(0);
    block_places(k, &mut places);
    let order = Order {
        block: k,
        places: &places,
    };
    code_streams(order, bits, &mut labels, &mut coded, out);
}

// The packed bytes of a block to its cells, by the places of its coded bits, in working buffers that are lent.
pub fn code_lent(
    order: Order,
    bytes: &[u8],
    bits: &mut [u8],
    labels: &mut [u8],
    coded: &mut [u8],
    out: &mut [i16],
)
    requires { BlockLent order.block bytes.now out.old × WorkLent order.block bits.old labels.old coded.old }
    ensures out_after { out.new ≡ cells_from order.entry.block bytes.now }
    ensures work_left { WorkLeft order.entry.block bytes.now bits.old labels.old coded.old
        bits.new labels.new coded.new }
{
    let k = order.block;
    let total = bit_count(k);
    unpack_parts(bytes, k.vspp, 0, &mut bits[0..total]);
    code_streams(order, &bits[0..total], labels, coded, out);
}

// So many equal blocks, one after the other.
fn code_each<const BITS: usize, const NUMBERS: usize>(
    work: &mut Work<BITS, NUMBERS>,
    many: usize,
    bytes: &[u8],
    out: &mut [i16],
)
    requires { BlocksLent work.old.order.block many bytes.now out.old }
    ensures { out.new ≡ cells_of_each work.old.order.block many bytes.now }
{
    let order = work.order;
    let k = order.block;
    let m = bit_count(k).div_ceil(8);
    let n = 2 * k.cells;
    for i in 0..many {
        code_lent(
            order,
            &bytes[m * i..m * i + m],
            &mut work.bits,
            &mut work.labels,
            &mut work.coded,
            &mut out[n * i..n * i + n],
        );
    }
}

// The same, with a table of places and working buffers of these sizes, which serve all of them.
fn code_within<const PLACES: usize, const BITS: usize, const NUMBERS: usize>(
    k: Block,
    many: usize,
    bytes: &[u8],
    out: &mut [i16],
)
    requires { BlocksLent k many bytes.now out.old × Enough k PLACES BITS NUMBERS }
    ensures { out.new ≡ cells_of_each k many bytes.now }
{
    let mut places: [u16; PLACES] = buffer(0);
    block_places(k, &mut places);
    let mut work: Work<BITS, NUMBERS> = Work {
        order: Order {
            block: k,
            places: &places,
        },
        bits: buffer(0),
        labels: buffer(0),
        coded: buffer(0),
    };
    code_each(&mut work, many, bytes, out);
}

// The packed bytes of so many equal blocks to their cells.
pub fn code_blocks(k: Block, many: usize, bytes: &[u8], out: &mut [i16])
    requires { BlocksLent k many bytes.now out.old }
    ensures { out.new ≡ cells_of_each k many bytes.now }
{
    if k.cells <= SMALL_CELLS {
        code_within::<SMALL_PLACES, SMALL_BITS, SMALL_NUMBERS>(k, many, bytes, out);
        return;
    }
    code_within::<MOST_PLACES, MOST_BITS, MOST_NUMBERS>(k, many, bytes, out);
}

// The packed bytes of a block to its cells.
pub fn code_block(k: Block, bytes: &[u8], out: &mut [i16])
    requires { BlockLent k bytes.now out.old }
    ensures { out.new ≡ cells_from k bytes.now }
{
    code_blocks(k, 1, bytes, out);
}
