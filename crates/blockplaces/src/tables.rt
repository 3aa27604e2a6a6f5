// The places of a block's coded bits: for each digit of the labels a table of part A's places and then of part B's, the digits' tables one after the
// other. In HMmix the two levels of a digit are interleaved alike at every setting, and so they have one table.
ghost use Rattle.std.specs.Prelude.{◌≡◌, cond, ◌*◌, ◌≤◌, take};
ghost use Rattle.block.specs.Block.{one_axis};
ghost use Rattle.block.specs.Reading.{size_a};
ghost use Rattle.labels.specs.Clauses.{Ordered, LevelOrder};
ghost use Rattle.blockplaces.specs.Clauses.{digit_at, BlockOrder, PartPlaces, LevelPlaces, BlockPlaces, part_over, level_over, block_over, shared};

use block::{Block, Level};
use component::code::coded_length;
use interleaver::table::make_places;

// A block and the places of its coded bits, as `block_places` makes them.
#[derive(Clone, Copy)]
pub struct Order<'a> {
    pub block: Block,
    pub places: &'a [u16],
    pub ghost ordered: { BlockOrder block places.now },
}

// A part's places and a 0 after them, if it is interleaved.
fn part_places(t: usize, n: usize, out: &mut [u16])
    requires { PartPlaces t n out.old }
    ensures ordered { Ordered t n (take n out.new) }
    ensures out_after { out.new ≡ part_over t n out.old }
{
    if t == 0 {
        return;
    }
    if n == 0 {
        return;
    }
    make_places(t, n, out);
}

// A level's places: part A's, and then part B's. The first of these stands where the 0 stood.
fn level_places(l: Level, n: usize, out: &mut [u16])
    requires { LevelPlaces n l out.old }
    ensures level_order { LevelOrder l (take n out.new) }
    ensures out_after { out.new ≡ level_over l.t (size_a l) n out.old }
{
    let patterna = l.patterna;
    let front = coded_length(patterna, l.bitsa);
    part_places(l.t, front, &mut out[0..front + 1]);
    part_places(l.t, n - front, &mut out[front..]);
}

// The coded bits of each level.
fn level_bits(k: Block) -> usize
    requires { k.cells ≤ 6118 }
    ensures { result ≡ cond (one_axis k) k.cells (2 * k.cells) }
{
    if k.one_axis() {
        return k.cells;
    }
    2 * k.cells
}

// How many levels have the same places: in HMmix two, one of each axis.
pub fn sharing(k: Block) -> usize
    ensures { result ≡ shared k }
{
    if k.one_axis() {
        return 2;
    }
    1
}

// The digit of level l in the labels.
pub fn digit(k: Block, l: usize) -> usize
    ensures { result ≡ digit_at (one_axis k) l }
{
    if k.one_axis() {
        return l / 2;
    }
    l
}

// The places of all levels, a table for each digit of the labels.
pub fn block_places(k: Block, out: &mut [u16])
    requires { BlockPlaces k out.old }
    ensures block_order { BlockOrder k out.new }
    ensures out_after { out.new ≡ block_over k out.old }
{
    let levels = k.levels;
    let n = level_bits(k);
    let step = sharing(k);
    let count = k.count / step;
    for i in 0..count {
        level_places(levels[step * i], n, &mut out[i * n..i * n + n + 1]);
    }
}
