// The bits of a segment from its coded ones, by division. 01 "Component code".
// Stays, in this module: slices stand one by one, since a clause would name one in a struct `rows.now.coded.now` and not `coded.now`.
ghost use Rattle.std.specs.Prelude.{◌≡◌, ◌+◌, ◌-◌, ◌*◌, ◌≤◌, ◌<◌, length};
ghost use Rattle.patterns.specs.Clauses.{pattern_of, Held};
ghost use Rattle.component.specs.Decoding.{coded_length};
ghost use Rattle.component.specs.Bits.{Bits};
ghost use Rattle.component.specs.Coding.{Decodes, Decoded};
ghost use Rattle.decoder.specs.Division.{product, Reaches, Multiplied, Divided, Collected, Collects, CollectsColumn, Raised};

use component::code::{Coder, Columns, count_coded, count_columns, decode_columns, register_at};
use patterns::Pattern;

// The first bits of a segment, which are decoded bit by bit: so far back reaches the mask with its digits four apart.
const FIRST: usize = 24;

// A segment of fewer bits is decoded bit by bit.
const LEAST: usize = 64;

// Writes b0 of a column of each round, from the place of the first one on.
fn collect_column(
    columns: Columns,
    stride: usize,
    coded: &[u8],
    at: usize,
    out: &mut [u8],
    i: usize,
)
    requires { CollectsColumn (pattern_of columns.pattern) stride coded.now at out.old i }
    ensures { (length out.new ≡ length out.old)
        × Collected (pattern_of columns.pattern) coded.now (at - coded_length (pattern_of columns.pattern) 0 i) (i + 1) out.new }
{
    let width = columns.pattern.width;
    let mut at = at;
    let mut j = i;
    // Stays: a `for` by `step_by` was tried; reading a level then takes 16 % more instructions.
    while j < out.len() {
        out[j] = coded[at] % 2;
        at += stride;
        j += width;
    }
}

// Writes b0 of every column, one column after the other, so that no place waits for another.
fn collect(columns: Columns, stride: usize, coded: &[u8], at: usize, out: &mut [u8])
    requires { Collects (pattern_of columns.pattern) stride coded.now at out.old }
    ensures { (length out.new ≡ length out.old)
        × Collected (pattern_of columns.pattern) coded.now at (length (pattern_of columns.pattern)) out.new }
{
    let mut at = at;
    for (i, width) in columns.widths[..columns.pattern.width].iter().enumerate() {
        collect_column(columns, stride, coded, at, out, i);
        at += *width;
    }
}

// A bit of some bits times mask 133 octal, whose digits stand a step apart.
#[tactic(auto, using(crate::proofs::Dividing::five), unfolding(crate::specs::Division::product))]
fn product(bits: &[u8], step: usize, j: usize) -> u8
    requires { Reaches step bits.now j }
    ensures { result ≡ product step bits.now j }
{
    (bits[j] + bits[j - 2 * step] + bits[j - 3 * step] + bits[j - 5 * step] + bits[j - 6 * step])
        % 2
}

// Bits times the mask, from the last on, so that no product is in the way of another.
// Stays: bits are bytes of the buffer that `decode` is lent, whose type must stay; a slice of another type would be a copy.
fn multiply(bits: &mut [u8], step: usize)
    requires { Bits bits.old × (12 * step ≤ length bits.old) × (step < 3) }
    ensures { Multiplied step bits.old bits.new }
{
    for j in (12 * step..bits.len()).rev() {
        bits[j] = product(bits, step, j);
    }
}

// Products with the mask, its digits four apart, divided by it: no bit waits for one of the seven before it.
fn divide(products: &mut [u8])
    requires { Bits products.old }
    ensures { Divided products.old products.new }
{
    for j in FIRST..products.len() {
        products[j] = product(products, 4, j);
    }
}

// Writes the input bits times the mask with its digits four apart: b0 times the mask, and that times the mask with its digits two apart.
fn raise(columns: Columns, coded: &[u8], at: usize, out: &mut [u8])
    requires { Collects (pattern_of columns.pattern) (coded_length (pattern_of columns.pattern) 0 (length (pattern_of columns.pattern))) coded.now at out.old
        × (24 ≤ length out.old) }
    ensures { Raised (pattern_of columns.pattern) coded.now at (length out.old) out.new }
{
    let pattern = columns.pattern.columns();
    let stride = count_columns(pattern, pattern.len());
    collect(columns, stride, coded, at, out);
    multiply(out, 1);
    multiply(out, 2);
}

// A segment of more bits: the first ones bit by bit, and the others by division.
// Stays: `Decodes` speaks of lent slices; a struct with it as its invariant would hold references, of which the line at the top speaks.
fn decode_long(columns: Columns, from: Coder, coded: &[u8], out: &mut [u8]) -> Coder
    requires { Decodes (pattern_of columns.pattern) from.register coded.now from.at out.old × (24 ≤ length out.old) }
    ensures { Decoded (pattern_of columns.pattern) from.register coded.now from.at (length out.old) result.register result.at out.new }
{
    let at = from.at + count_coded(columns.pattern.columns(), out.len());
    raise(columns, coded, from.at, out);
    decode_columns(columns, from, coded, &mut out[0..FIRST]);
    divide(out);
    let register = register_at(out, out.len() - 7) as u32;
    Coder { register, at }
}

// A segment: a short one, as the tail, bit by bit.
// Stays: `Decodes` speaks of lent slices; a struct with it as its invariant would hold references, of which the line at the top speaks.
fn decode_segment(columns: Columns, from: Coder, coded: &[u8], out: &mut [u8]) -> Coder
    requires { Decodes (pattern_of columns.pattern) from.register coded.now from.at out.old }
    ensures { Decoded (pattern_of columns.pattern) from.register coded.now from.at (length out.old) result.register result.at out.new }
{
    if out.len() < LEAST {
        return decode_columns(columns, from, coded, out);
    }
    decode_long(columns, from, coded, out)
}

// The bits of a segment from the coded bits from the coder's place on: as many as out is long.
// Stays: `Held` is no invariant of Pattern, since `channels::blocks::no_level` gives patterns without a column (docs/DECISIONS.md).
pub fn decode(pattern: Pattern, from: Coder, coded: &[u8], out: &mut [u8]) -> Coder
    requires { Held pattern × Decodes (pattern_of pattern) from.register coded.now from.at out.old }
    ensures { Decoded (pattern_of pattern) from.register coded.now from.at (length out.old) result.register result.at out.new }
{
    decode_segment(Columns::new(pattern), from, coded, out)
}
