// One level read from labels: its bits taken out, put back to their places and decoded. 01 "Operations".
// Stays, in this module: buffers that are written are lent as `&mut`; with a struct of these a clause must also say that each reference is still the
// same one. A struct of a level, its weight and its places would be built anew for each level (`multilevel`), from a slice of the block's table, and what
// is required of it is required against the lengths of labels and bits; docs/PROMISES.md names `code_level` and `read_level` with these arguments.
ghost use Rattle.std.specs.Prelude.{◌≡◌, length};
ghost use Rattle.std.proofs.lemmas.List.Edits.{sets};
ghost use Rattle.block.specs.Reading.{taken, unmixed};
ghost use Rattle.level.specs.Clauses.{level_bits_over, taken_over, ReadsPart, PartRead, ReadsLevel};

use block::Level;
use component::code::{Coder, coded_length};
use decoder::segment::decode;
use labels::bits::take_part;
use patterns::Pattern;

// The input bits of a part, as many as out is long, from the labels; the register behind them. Its coded bits are put to the front of the buffer.
fn read_part(
    pattern: Pattern,
    register: u32,
    t: usize,
    weight: u8,
    places: &[u16],
    labels: &[u8],
    coded: &mut [u8],
    out: &mut [u8],
) -> u32
    requires { ReadsPart pattern register t weight places.now labels.now coded.old out.old }
    ensures part_read { PartRead pattern register t weight labels.now (length out.old) result out.new }
    ensures coded_after { coded.new ≡ sets coded.old 0 (unmixed t (taken weight labels.now)) }
{
    let n = labels.len();
    take_part(t, weight, places, labels, &mut coded[0..n]);
    let coder = decode(pattern, Coder { register, at: 0 }, &coded[0..n], out);
    coder.register
}

// A level's input bits from the labels, those of part A from place `at` on and those of part B from place `from` on: part A's from register 0, part B's
// from the register behind.
// Stays: docs/PROMISES.md names it, and it promises the whole of `bits`, of which both parts' places are parts; two slices in place of them would be cut from
// the block's bits and put together again for each level.
pub fn read_level(
    l: Level,
    weight: u8,
    places: &[u16],
    labels: &[u8],
    coded: &mut [u8],
    bits: &mut [u8],
    at: usize,
    from: usize,
)
    requires { ReadsLevel l weight places.now labels.now coded.old bits.old at from }
    ensures bits_after { bits.new ≡ level_bits_over l (taken weight labels.now) at from bits.old }
    ensures coded_after { coded.new ≡ taken_over l (taken weight labels.now) coded.old }
{
    let front = coded_length(l.patterna, l.bitsa);
    let register = read_part(
        l.patterna,
        0,
        l.t,
        weight,
        &places[0..front],
        &labels[0..front],
        coded,
        &mut bits[at..at + l.bitsa],
    );
    read_part(
        l.patternb,
        register,
        l.t,
        weight,
        &places[front..],
        &labels[front..],
        coded,
        &mut bits[from..from + l.bitsb],
    );
}
