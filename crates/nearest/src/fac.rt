// The nearest FAC block. 02, S-9.
ghost use Rattle.std.specs.Prelude.{◌≡◌, length};
ghost use Rattle.patterns.specs.Patterns.{table65, pattern, R3/5};
ghost use Rattle.interleaver.specs.Deinterleaving.{deinterleaved};
ghost use Rattle.refusal.specs.Numbers.{answer};
ghost use Rattle.nearest.specs.Coded.{fac_flips};
ghost use Rattle.nearest.specs.Fac.{all_values, nearest_yield, nearest_of};
ghost use Rattle.nearest.specs.Clauses.{Found, Long, Receives, Nearby, NearbyBits};

use crate::search::search_with;
use dispersal::bits::disperse;
use interleaver::table::make_places;
use packing::bits::pack;
use partlengths::tables::{FAC_BYTES, FAC_NUMBERS, R3_5};
use patterns::table::{pattern, standard_table};
use refusal::Refusal;

// An FAC block's bits and t of its interleaver.
const FAC_BITS: usize = 72;

const FAC_STEP: usize = 21;

// Whether every received value is 0, 1 or 2.
fn all_values(received: &[u8]) -> bool
    ensures { result ≡ all_values received.now }
{
    received.iter().all(|value| *value < 3)
}

// The bits that dispersal adds to a block: what it makes of zeros.
fn flips() -> [u8; FAC_BITS]
    ensures { result ≡ fac_flips }
{
    let mut flips = [0u8; FAC_BITS];
    disperse(0, &mut flips);
    flips
}

// The search with the standard's pattern of rate 3/5, with which the FAC's tail goes on.
fn search_block(values: &[u8], bits: &mut [u8]) -> u16
    requires { length bits.old ≡ 72 }
    ensures { Found (pattern table65 R3/5) (pattern table65 R3/5) fac_flips values.now bits.new result }
{
    let flips = flips();
    let table = standard_table();
    let p = pattern(&table, R3_5);
    search_with(p, p, &flips, values, bits)
}

// Received values, which are no bits where they are unknown, back in the coder's order: value i goes to place P(i).
fn put_back(received: &[u8], values: &mut [u8])
    requires { (length received.now ≡ 130) × Long 130 values.old }
    ensures { values.new ≡ deinterleaved 0 21 received.now }
{
    let n = received.len();
    let mut places = [0u16; FAC_NUMBERS + 1];
    make_places(FAC_STEP, n, &mut places);
    for (i, &value) in received.iter().enumerate() {
        values[places[i] as usize] = value;
    }
}

// The nearest block's bits: the values are put back to the coder's order first.
fn nearest_bits(received: &[u8], bits: &mut [u8]) -> u16
    requires { (length received.now ≡ 130) × (length bits.old ≡ 72) }
    ensures { NearbyBits received.now bits.new result }
{
    let mut values = [0u8; FAC_NUMBERS];
    put_back(received, &mut values);
    search_block(&values, bits)
}

// The nearest block, packed.
fn nearest_block(received: &[u8], block: &mut [u8]) -> u16
    requires { Receives received.now block.old }
    ensures { Nearby received.now block.new result }
{
    let mut bits = [0u8; FAC_BITS];
    let count = nearest_bits(received, &mut bits);
    pack(&bits, block);
    count
}

// The call: 130 received values in the order of the mapped cells, each 0, 1 or 2 for unknown, to the nearest block and its number of disagreements.
// Refusals 9, 10 and 21, lowest number first.
#[tactic(auto, unfolding(crate::specs::Fac::nearest_of, crate::specs::Fac::nearest_refusal, crate::specs::Fac::nearest_refusal_by, crate::specs::Fac::nearest_accepted, settings::specs::Refusal::first, partlengths::specs::Cells::fac_cells, partlengths::specs::Formulas::fac_bits, lists::specs::Bytes::bytes_for))]
pub fn fac_nearest(received: &[u8], block: &mut [u8], count: &mut [u16]) -> Result<(), Refusal>
    ensures { nearest_yield (answer result) block.new count.new ≡ nearest_of received.now block.old count.old }
{
    if received.len() != FAC_NUMBERS {
        return Err(Refusal::InputLength);
    }
    if block.len() != FAC_BYTES || count.len() != 1 {
        return Err(Refusal::OutputLength);
    }
    if !all_values(received) {
        return Err(Refusal::Received);
    }
    count[0] = nearest_block(received, block);
    Ok(())
}
