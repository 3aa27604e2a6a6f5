// Received values to four a bit, 2 for unknown where a column keeps nothing: the search then knows no pattern. 02, S-9.
ghost use Rattle.std.specs.Prelude.{◌≡◌, ◌+◌, ◌-◌, ◌/◌, length, drop};
ghost use Rattle.std.proofs.lemmas.List.Edits.{sets};
ghost use Rattle.std.specs.Int.Count.{ones};
ghost use Rattle.component.specs.Decoding.{coded_length};
ghost use Rattle.nearest.specs.Clauses.{value_or, spread, spread_all, restored, Spreads, SpreadsAll, Restores};

use component::code::following;

// The next value where a column keeps its bit, and unknown where it does not or where nothing was received.
fn value_or(kept: u8, received: &[u8], at: usize) -> u8
    ensures { result ≡ value_or kept (drop at received.now) }
{
    if kept != 1 {
        return 2;
    }
    received.get(at).copied().unwrap_or(2)
}

// The four values of a column, written to out from `to` on; the place behind those received.
fn spread_column(column: u8, received: &[u8], at: usize, out: &mut [u8], to: usize) -> usize
    requires { Spreads column at out.old to }
    ensures { (result ≡ at + ones column) × (out.new ≡ sets out.old to (spread 4 column (drop at received.now))) }
{
    let mut column = column;
    let mut at = at;
    for i in 0..4 {
        let kept = column % 2;
        out[to + i] = value_or(kept, received, at);
        at += kept as usize;
        column /= 2;
    }
    at
}

// Stays: the column goes along by `following`, as in `component::code`, whose line says what was tried; and received values stay whole beside a place,
// since fewer may have come than the pattern keeps, and a slice from the place on would have to be tested first.
// The values of a segment from place `at` on, four for each of its bits: they fill out.
fn spread_segment(pattern: &[u8], received: &[u8], at: usize, out: &mut [u8]) -> usize
    requires { SpreadsAll pattern.now at out.old }
    ensures { (result ≡ at + coded_length pattern.now 0 (length out.old / 4)) × (out.new
        ≡ spread_all pattern.now 0 (length out.old / 4) (drop at received.now)) }
{
    let n = out.len() / 4;
    let mut at = at;
    let mut i = 0;
    for j in 0..n {
        at = spread_column(pattern[i], received, at, out, 4 * j);
        i = following(pattern.len(), i);
    }
    at
}

// The values of a level and of its six tail bits.
pub fn restore(pattern: &[u8], tail: &[u8], received: &[u8], out: &mut [u8])
    requires { Restores pattern.now tail.now out.old }
    ensures { out.new ≡ restored pattern.now tail.now (length out.old / 4 - 6) received.now }
{
    let front = out.len() - 24;
    let at = spread_segment(pattern, received, 0, &mut out[0..front]);
    spread_segment(tail, received, at, &mut out[front..]);
}
