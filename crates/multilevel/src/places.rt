// Where the bits of a level stand among those of parts A and B. 01 "Partition".
ghost use Rattle.std.specs.Prelude.{◌≡◌};
ghost use Rattle.block.specs.Block.{bit_count};
ghost use Rattle.block.specs.Fits.{BlockFits};
ghost use Rattle.multilevel.specs.Clauses.{bits_in, bits_before, Sums};
ghost use Rattle.multilevel.specs.Parts.{is_b};

use block::{Block, Level};

// The two parts of a block's bits, each with a protection of its own.
#[derive(Clone, Copy)]
pub enum Part {
    A,
    B,
}

// A level's input bits in a part.
#[tactic(auto, unfolding(crate::specs::Clauses::bits_in))]
fn bits_in(l: Level, part: Part) -> usize
    ensures { result ≡ bits_in (is_b part) l }
{
    match part {
        Part::A => l.bitsa,
        Part::B => l.bitsb,
    }
}

// The input bits of the levels before level l in a part.
pub fn bits_before(k: Block, part: Part, l: usize) -> usize
    requires { Sums k.levels (is_b part) l }
    ensures { result ≡ bits_before k.levels (is_b part) l }
{
    let mut sum = 0;
    for i in 0..l {
        sum += bits_in(k.levels[i], part);
    }
    sum
}

// The bits of a block.
pub fn bit_count(k: Block) -> usize
    requires { BlockFits k }
    ensures { result ≡ bit_count k }
{
    bits_before(k, Part::A, k.count) + bits_before(k, Part::B, k.count)
}
