// The levels of a block coded and added up as labels. 01 "Partition" and "Mapping".
// Stays, in this module: buffers that are written are lent as `&mut`; with a struct of these a clause must also say that each reference is still the
// same one. An `Order` in place of a block and places would ask for the places of every level, where `CodesLevels` asks for those of the levels from
// `first` on alone; docs/DECISIONS.md names `code_levels`.
ghost use Rattle.std.specs.Prelude.{◌≡◌, length};
ghost use Rattle.blockplaces.specs.Clauses.{shared, digits};
ghost use Rattle.multilevel.specs.Clauses.{stream_at, coded_over_at, labels_from, levels_over, CodesAt, CodesLevels};
ghost use Rattle.labels.specs.Clauses.{added};
ghost use Rattle.block.specs.Block.{one_axis};

use crate::places::{Part, bits_before};
use block::Block;
use blockplaces::tables::{digit, sharing};
use level::code::code_level;

// Level l of a block coded and added to the labels with its weight.
fn code_at(
    k: Block,
    l: usize,
    weight: u8,
    places: &[u16],
    a: &[u8],
    b: &[u8],
    coded: &mut [u8],
    labels: &mut [u8],
)
    requires { CodesAt (one_axis k) k.levels l weight places.now a.now b.now coded.old labels.old }
    ensures labels_after { labels.new ≡ added weight (stream_at k.levels a.now b.now l) labels.old }
    ensures coded_after { coded.new ≡ coded_over_at k.levels a.now b.now l coded.old }
{
    let level = k.levels[l];
    let at = bits_before(k, Part::A, l);
    let from = bits_before(k, Part::B, l);
    let start = digit(k, l) * labels.len();
    code_level(
        level,
        weight,
        &places[start..start + labels.len()],
        &a[at..at + level.bitsa],
        &b[from..from + level.bitsb],
        coded,
        labels,
    );
}

// The labels i0 + 2 × i1 + 4 × i2 of the streams of every level from level `first` on, or in HMmix of every second one.
pub fn code_levels(
    k: Block,
    first: usize,
    places: &[u16],
    a: &[u8],
    b: &[u8],
    coded: &mut [u8],
    labels: &mut [u8],
)
    requires { CodesLevels k first places.now a.now b.now coded.old labels.old }
    ensures labels_after { labels.new ≡ labels_from k first a.now b.now (length labels.old) }
    ensures coded_after { coded.new ≡ levels_over k.levels a.now b.now first (shared k) (digits k) coded.old }
{
    labels.fill(0);
    let step = sharing(k);
    let mut l = first;
    let mut weight: u8 = 1;
    // Stays: level and weight by `first + step * turn` and `1 << turn` were tried; this function then takes 16 % more instructions.
    for turn in 0..k.count / step {
        code_at(k, l, weight, places, a, b, coded, labels);
        l += step;
        weight = 2 * weight;
    }
}
