// The levels of a block read from labels, each from the bits with its weight. 01 "Operations".
// Stays, in this module: buffers that are written are lent as `&mut`; with a struct of these a clause must also say that each reference is still the
// same one. An `Order` in place of a block and places would ask for the places of every level, where `ReadsLevels` asks for those of the levels from
// `first` on alone; docs/DECISIONS.md names `read_levels`.
ghost use Rattle.std.specs.Prelude.{◌≡◌};
ghost use Rattle.block.specs.Reading.{taken};
ghost use Rattle.blockplaces.specs.Clauses.{level_at, shared, digits};
ghost use Rattle.level.specs.Clauses.{taken_over};
ghost use Rattle.multilevel.specs.Clauses.{taken_overs, part_a, part_b, ReadsAt, ReadAt, ReadsLevels, LevelsRead};

use crate::places::{Part, bits_before};
use block::Block;
use blockplaces::tables::{digit, sharing};
use level::read::read_level;

// Level l's bits, those with that weight in the labels, read into their places in the block's: part A's bits stand first.
fn read_at(
    k: Block,
    l: usize,
    weight: u8,
    places: &[u16],
    labels: &[u8],
    coded: &mut [u8],
    bits: &mut [u8],
)
    requires { ReadsAt k l weight places.now labels.now coded.old bits.old }
    ensures read_at_lem { ReadAt k.levels l (taken weight labels.now) (part_a k bits.old) (part_b k bits.old)
        (part_a k bits.new) (part_b k bits.new) }
    ensures coded_after { coded.new ≡ taken_over (level_at k.levels l) (taken weight labels.now) coded.old }
{
    let level = k.levels[l];
    let at = bits_before(k, Part::A, l);
    let from = bits_before(k, Part::A, k.count) + bits_before(k, Part::B, l);
    let start = digit(k, l) * labels.len();
    read_level(
        level,
        weight,
        &places[start..start + labels.len()],
        labels,
        coded,
        bits,
        at,
        from,
    );
}

// The bits of the levels that share an axis, or of all, from level `first` on, read from the labels i0 + 2 × i1 + 4 × i2 of their streams.
pub fn read_levels(
    k: Block,
    first: usize,
    places: &[u16],
    labels: &[u8],
    coded: &mut [u8],
    bits: &mut [u8],
)
    requires { ReadsLevels k first places.now labels.now coded.old bits.old }
    ensures levels_read { LevelsRead k first labels.now bits.old bits.new }
    ensures coded_after { coded.new ≡ taken_overs k.levels labels.now first (shared k) 1 (digits k) coded.old }
{
    let step = sharing(k);
    for turn in 0..k.count / step {
        let l = first + step * turn;
        read_at(k, l, 1 << turn, places, labels, coded, bits);
    }
}
