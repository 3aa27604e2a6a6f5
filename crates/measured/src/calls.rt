// The call: cells as kinds and values to points and bits. 02, S-10.
// Stays, in this module: buffers stand one by one, since a clause would name one in a struct `cells.now.kinds.now` and not `kinds.now`.
ghost use Rattle.std.specs.Prelude.{◌≡◌, ◌*◌, ◌≤◌, ◌<◌, eqb};
ghost use Rattle.refusal.specs.Numbers.{answer};
ghost use Rattle.measured.specs.Calls.{constellation_of, axis_bits, cell_at, pass, points_of, bit_at, bits_of, decide_yield, decide_refusal, decide_by, decide_of};
ghost use Rattle.measured.specs.Clauses.{HasCell, Lent, PointsFit, BitFits, BitsFit};

use crate::Channel;
use block::Constellation;
use channels::blocks::{msc_constellation, sdc_constellation};
use decision::cells::{bit, point, refused};
use decision::{Measured, MeasuredCell};
use refusal::Refusal;
use settings::{Settings, refusals};

// The constellation of a channel's cells.
#[tactic(auto, unfolding(crate::specs::Calls::constellation_of))]
fn constellation_of(channel: Channel, s: Settings) -> Constellation
    requires { s.msc < 4 }
    ensures { result ≡ constellation_of channel s }
{
    match channel {
        Channel::Fac => Constellation::Qam4,
        Channel::Sdc => sdc_constellation(s.sdc),
        Channel::Msc => msc_constellation(s.msc),
    }
}

// The level bits of an axis, by constellation.
// Stays: bits here and first places in `decision` are two tables by constellation; one table would give pairs of which each caller drops one.
#[tactic(auto, unfolding(crate::specs::Calls::axis_bits))]
fn axis_bits(c: Constellation) -> usize
    ensures { result ≡ axis_bits c }
{
    match c {
        Constellation::Qam4 => 1,
        Constellation::Qam16 => 2,
        Constellation::Sm64 | Constellation::HmSym | Constellation::HmMix => 3,
    }
}

// Cell k of those lent.
#[tactic(auto, unfolding(crate::specs::Calls::cell_at))]
fn cell_at(kinds: &[u8], values: &[f32], k: usize) -> MeasuredCell
    requires { HasCell kinds.now values.now k }
    ensures { result ≡ cell_at kinds.now values.now k }
{
    let first = values[2 * k];
    let second = values[2 * k + 1];
    if kinds[k] == 0 {
        return MeasuredCell::Pair(Measured {
            real: first,
            imaginary: second,
        });
    }
    MeasuredCell::Fade(first)
}

// Whether no cell is refused by 22.
fn all_pass(kinds: &[u8], values: &[f32]) -> bool
    requires { Lent kinds.now values.now }
    ensures { result ≡ pass kinds.now values.now }
{
    for k in 0..kinds.len() {
        if refused(cell_at(kinds, values, k)) {
            return false;
        }
    }
    true
}

// Whether there are `each` elements for each of n; divided, since a product could be too large.
fn are_each(elements: usize, each: usize, n: usize) -> bool
    requires { 1 ≤ each }
    ensures { result ≡ eqb elements (each * n) }
{
    (elements % each == 0) & (elements / each == n)
}

// Whether cells are refused: by 9 for the values, 10 for the points or bits, or 22, lowest number first.
fn check(
    c: Constellation,
    kinds: &[u8],
    values: &[f32],
    points: usize,
    bits: usize,
) -> Result<(), Refusal>
    ensures { answer result ≡ decide_refusal c kinds.now values.now points bits }
{
    let n = kinds.len();
    if !are_each(values.len(), 2, n) {
        return Err(Refusal::InputLength);
    }
    if !(are_each(points, 2, n) & are_each(bits, 2 * axis_bits(c), n)) {
        return Err(Refusal::OutputLength);
    }
    if !all_pass(kinds, values) {
        return Err(Refusal::Measured);
    }
    Ok(())
}

// Every cell's point.
fn decide_points(c: Constellation, kinds: &[u8], values: &[f32], points: &mut [i16])
    requires { PointsFit kinds.now values.now points.old }
    ensures { points.new ≡ points_of c kinds.now values.now }
{
    for m in 0..points.len() {
        points[m] = point(c, cell_at(kinds, values, m / 2), m);
    }
}

// Level bit l of number m, from the points.
fn bit_at(c: Constellation, kinds: &[u8], values: &[f32], points: &[i16], m: usize, l: usize) -> u8
    requires { BitFits c kinds.now values.now points.now m l }
    ensures { result ≡ bit_at c kinds.now values.now m l }
{
    bit(c, cell_at(kinds, values, m / 2), m, points[m], l)
}

// Every cell's bits, from the points.
fn decide_bits(c: Constellation, kinds: &[u8], values: &[f32], points: &[i16], bits: &mut [u8])
    requires { BitsFit c kinds.now values.now points.now bits.old }
    ensures { bits.new ≡ bits_of c kinds.now values.now }
{
    let each = axis_bits(c);
    for j in 0..bits.len() {
        bits[j] = bit_at(c, kinds, values, points, j / each, j % each);
    }
}

// The call for a constellation.
#[tactic(auto, using(refusal::proofs::Positive::number_positive), unfolding(crate::specs::Calls::decide_by))]
fn decide_by(
    c: Constellation,
    kinds: &[u8],
    values: &[f32],
    points: &mut [i16],
    bits: &mut [u8],
) -> Result<(), Refusal>
    ensures { decide_yield (answer result) points.new bits.new
        ≡ decide_by c kinds.now values.now points.old bits.old }
{
    check(c, kinds, values, points.len(), bits.len())?;
    decide_points(c, kinds, values, points);
    decide_bits(c, kinds, values, points, bits);
    Ok(())
}

// The call for a channel: a refusal leaves points and bits as they were.
#[tactic(auto, using(refusal::proofs::Positive::number_positive), unfolding(crate::specs::Calls::decide_of))]
pub fn decide(
    channel: Channel,
    s: Settings,
    kinds: &[u8],
    values: &[f32],
    points: &mut [i16],
    bits: &mut [u8],
) -> Result<(), Refusal>
    ensures { decide_yield (answer result) points.new bits.new
        ≡ decide_of channel s kinds.now values.now points.old bits.old }
{
    refusals::check(s)?;
    decide_by(constellation_of(channel, s), kinds, values, points, bits)
}
