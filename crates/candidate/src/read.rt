// The candidate of a block: the bits that undoing every stage gives. 01 "Operations".
// Stays, in this module: docs/DECISIONS.md names `read_packed`, which takes any slices with room: a struct that owns them, as `blockcoder::work::Work`, would
// ask for arrays of its sizes; with a struct of `&mut` a clause must also say that each reference is still the same one.
ghost use Rattle.std.specs.Prelude.{◌≡◌, ◌<◌};
ghost use Rattle.block.specs.Dispersal.{dispersed_parts};
ghost use Rattle.block.specs.Fits.{BlockLent, WorkLent};
ghost use Rattle.block.specs.Packing.{packed};
ghost use Rattle.block.specs.Reading.{bytes_read};
ghost use Rattle.blockplaces.specs.Clauses.{shared};
ghost use Rattle.multilevel.specs.Clauses.{LevelsRead};
ghost use Rattle.candidate.specs.Clauses.{ReadsCandidate, labels_at, LabelsLent, labels_over, LabelsMade, axis_taken, LevelsTaken, level_bits, PacksParts, CandidateLeft};

use block::Block;
use blockplaces::tables::Order;
use dispersal::bits::disperse;
use mapping::points::{unmap_axis, unmap_cells};
use multilevel::places::bit_count;
use multilevel::read::read_levels;
use packing::bits::pack;

// The labels that the levels from level a on are read from, in HMmix those of axis a, and how many they are.
fn level_labels(k: Block, a: usize, cells: &[i16], labels: &mut [u8]) -> usize
    requires { LabelsLent k a cells.now labels.old }
    ensures { LabelsMade k a cells.now labels.old result labels.new }
{
    let n = cells.len();
    if k.one_axis() {
        let m = n / 2;
        unmap_axis(k.constellation, a, cells, &mut labels[0..m]);
        return m;
    }
    unmap_cells(k.constellation, cells, &mut labels[0..n]);
    n
}

// All levels read from cells, or in HMmix those of an axis: the first of each pair of levels is of the real axis, axis 0, the second of the imaginary one.
fn read_axis(
    order: Order,
    a: usize,
    cells: &[i16],
    labels: &mut [u8],
    coded: &mut [u8],
    bits: &mut [u8],
)
    requires { ReadsCandidate order.block cells.now labels.old coded.old bits.old × (a < shared order.block) }
    ensures levels_read { let k = order.entry.block in LevelsRead k a (labels_at k a cells.now) bits.old bits.new }
    ensures labels_after { labels.new ≡ labels_over order.entry.block a cells.now labels.old }
    ensures coded_after { coded.new ≡ axis_taken order.entry.block a cells.now coded.old }
{
    let k = order.block;
    let n = level_labels(k, a, cells, labels);
    read_levels(k, a, order.places, &labels[0..n], coded, bits);
}

// All levels read from cells.
fn read_cells(order: Order, cells: &[i16], labels: &mut [u8], coded: &mut [u8], bits: &mut [u8])
    requires { ReadsCandidate order.block cells.now labels.old coded.old bits.old }
    ensures bits_after { bits.new ≡ level_bits order.entry.block cells.now }
    ensures levels_taken { LevelsTaken order.entry.block cells.now labels.old coded.old labels.new coded.new }
{
    let k = order.block;
    read_axis(order, 0, cells, labels, coded, bits);
    if !k.one_axis() {
        return;
    }
    read_axis(order, 1, cells, labels, coded, bits);
}

// The bits of all levels packed, dispersal undone in the first `vspp` of them and in the others, each from the sequence's start.
fn pack_parts(vspp: usize, bits: &mut [u8], bytes: &mut [u8])
    requires { PacksParts vspp bits.old bytes.old }
    ensures bytes_after { bytes.new ≡ packed (dispersed_parts vspp bits.old) }
    ensures bits_after { bits.new ≡ dispersed_parts vspp bits.old }
{
    disperse(0, &mut bits[0..vspp]);
    disperse(0, &mut bits[vspp..]);
    pack(bits, bytes);
}

// The candidate, packed.
pub fn read_packed(
    order: Order,
    cells: &[i16],
    bits: &mut [u8],
    labels: &mut [u8],
    coded: &mut [u8],
    bytes: &mut [u8],
)
    requires { BlockLent order.block bytes.old cells.now × WorkLent order.block bits.old labels.old coded.old }
    ensures bytes_after { bytes.new ≡ bytes_read order.entry.block cells.now }
    ensures candidate_left { CandidateLeft order.entry.block cells.now bits.old labels.old coded.old
        bits.new labels.new coded.new }
{
    let k = order.block;
    let total = bit_count(k);
    read_cells(order, cells, labels, coded, &mut bits[0..total]);
    pack_parts(k.vspp, &mut bits[0..total], bytes);
}
