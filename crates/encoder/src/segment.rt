// The coded bits of a segment, by columns over whole rounds of its pattern. 01 "Component code".
// Stays, in this module: buffers stand one by one; with a struct of `&mut` a clause must also say that each reference is still the same one.
ghost use Rattle.std.specs.Prelude.{◌≡◌, [], ◌∷◌, ◌+◌, ◌-◌, ◌*◌, ◌%◌, ◌≤◌, ◌<◌, length, take, drop};
ghost use Rattle.std.proofs.lemmas.List.Edits.{sets};
ghost use Rattle.std.specs.Int.Count.{ones};
ghost use Rattle.component.specs.Register.{parity, parities};
ghost use Rattle.component.specs.Codeword.{kept, encode};
ghost use Rattle.patterns.specs.Clauses.{pattern_of, Held};
ghost use Rattle.lists.specs.Lists.{table};
ghost use Rattle.component.specs.Bits.{Bits};
ghost use Rattle.component.specs.Coding.{Encodes, Encoded, register_at};
ghost use Rattle.encoder.specs.Rounds.{laid, rounds_laid, Lays, LaysRounds, EncodesRounds, EncodesBlocks};

use component::code::{Coder, count_columns, encode_columns, parity, register_at};
use lists::buffers::buffer;
use patterns::Pattern;

// The first rounds of a segment, which fill a register: a segment of fewer is coded bit by bit.
const ROUNDS: usize = 7;

// The registers of so many bits are made at a time.
const BLOCK: usize = 2048;

// Whole rounds, two and two: how many registers and how many coded bits each has, and how many pairs there are.
#[derive(Clone, Copy)]
struct Rounds {
    width: usize,
    stride: usize,
    pairs: usize,
}

// The registers of a run of bits, each from its own bit and the six before it, so that none waits for another.
// Stays: bits are bytes that `encode` is lent, whose type must stay; a slice of another type would be a copy.
fn registers_of(bits: &[u8], from: usize, registers: &mut [u8])
    requires { Bits bits.now × (from + length registers.old + 6 ≤ length bits.now) }
    ensures { registers.new
        ≡ table (λ k. register_at bits.now (from + k)) 0 (length registers.old) }
{
    for k in 0..registers.len() {
        registers[k] = register_at(bits, from + k);
    }
}

impl Rounds {
    // Stays: out is lent and cannot grow; the columns' bits lie between one another, a stride apart, so each column has its place in the whole.
    // Writes one parity a round, from the first register of each, where the lowest digit of the column says that it is kept: two rounds a turn.
    fn lay(self, column: u8, registers: &[u8], mask: u32, out: &mut [u8], at: usize) -> usize
        requires { Lays registers.now self.width (2 * self.pairs) out.old at self.stride (column % 2) }
        ensures { (result ≡ at + column % 2) × (out.new
            ≡ laid (λ x. kept column (parity mask x ∷ [])) registers.now self.width (2 * self.pairs) out.old at self.stride) }
    {
        if column % 2 == 0 {
            return at;
        }
        let width = self.width;
        let stride = self.stride;
        for k in 0..self.pairs {
            out[at + 2 * k * stride] = parity(registers[2 * k * width] as u32, mask);
            out[at + (2 * k + 1) * stride] = parity(registers[(2 * k + 1) * width] as u32, mask);
        }
        at + 1
    }

    // Stays: out is lent and cannot grow; the columns' bits lie between one another, a stride apart, so each column has its place in the whole.
    // Writes what a column keeps of each round.
    fn lay_column(self, column: u8, registers: &[u8], out: &mut [u8], at: usize) -> usize
        requires { Lays registers.now self.width (2 * self.pairs) out.old at self.stride (ones column) × (column < 16) }
        ensures { (result ≡ at + ones column) × (out.new
            ≡ laid (λ x. kept column (parities x)) registers.now self.width (2 * self.pairs) out.old at self.stride) }
    {
        let one = self.lay(column, registers, 0o133, out, at);
        let two = self.lay(column / 2, registers, 0o171, out, one);
        let three = self.lay(column / 2 / 2, registers, 0o145, out, two);
        self.lay(column / 2 / 2 / 2, registers, 0o133, out, three)
    }

    // Stays: out is lent and cannot grow; the columns' bits lie between one another, a stride apart, so each column has its place in the whole.
    // The coded bits of the rounds from the registers of their bits, one column after the other.
    fn lay_columns(self, pattern: &[u8], registers: &[u8], out: &mut [u8], at: usize)
        requires { LaysRounds pattern.now registers.now (2 * self.pairs) out.old at self.stride × (self.width ≡ length pattern.now) }
        ensures { out.new
            ≡ rounds_laid pattern.now registers.now (length pattern.now) (2 * self.pairs) out.old at self.stride }
    {
        let mut at = at;
        for (i, column) in pattern.iter().enumerate() {
            at = self.lay_column(*column, &registers[i..], out, at);
        }
    }

    // Stays: out is lent and cannot grow; the columns' bits lie between one another, a stride apart, so each column has its place in the whole.
    // The rounds of the bits from first on: all their registers, and then one column after the other.
    fn encode(self, pattern: &[u8], bits: &[u8], first: usize, out: &mut [u8], at: usize)
        requires { EncodesRounds pattern.now self.stride bits.now first self.pairs out.old at × (self.width ≡ length pattern.now) }
        ensures { out.new
            ≡ sets out.old at
            (encode pattern.now (register_at bits.now (first - 7)) 0
            (take (2 * self.pairs * length pattern.now) (drop first bits.now))) }
    {
        let n = 2 * self.pairs * pattern.len();
        let mut registers: [u8; BLOCK] = buffer(0);
        registers_of(bits, first - 6, &mut registers[0..n]);
        self.lay_columns(pattern, &registers[0..n], out, at);
    }
}

// Stays: out is lent and cannot grow, so the place of the next coded bit goes along with it.
// What is left of a segment from a place behind its first rounds on: one block of pairs of rounds after the other, and the rest bit by bit.
fn encode_blocks(pattern: &[u8], bits: &[u8], first: usize, out: &mut [u8], at: usize) -> Coder
    requires { EncodesBlocks pattern.now bits.now first out.old at }
    ensures { Encoded pattern.now (register_at bits.now (first - 7)) (drop first bits.now)
        out.old at result.register result.at out.new }
{
    let width = pattern.len();
    let stride = count_columns(pattern, width);
    let pairs = (bits.len() - first) / width / 2;
    let most = BLOCK / width / 2;
    for k in (0..pairs).step_by(most) {
        let rounds = Rounds {
            width,
            stride,
            pairs: most.min(pairs - k),
        };
        let from = first + 2 * k * width;
        rounds.encode(pattern, bits, from, out, at + 2 * k * stride);
    }
    let rest = first + 2 * pairs * width;
    let register = register_at(bits, rest - 7) as u32;
    let at = at + 2 * pairs * stride;
    encode_columns(pattern, Coder { register, at }, &bits[rest..], out)
}

// A segment: its first rounds bit by bit, and what is left by blocks.
fn encode_segment(pattern: &[u8], from: Coder, bits: &[u8], out: &mut [u8]) -> Coder
    requires { Encodes pattern.now from.register bits.now out.old from.at × (length pattern.now ≤ 8) }
    ensures { Encoded pattern.now from.register bits.now out.old from.at result.register result.at out.new }
{
    if bits.len() / ROUNDS < pattern.len() {
        return encode_columns(pattern, from, bits, out);
    }
    let head = ROUNDS * pattern.len();
    let front = encode_columns(pattern, from, &bits[0..head], out);
    encode_blocks(pattern, bits, head, out, front.at)
}

// The coded bits of a segment, written to out from the coder's place on.
// Stays: `Held` is no invariant of Pattern, since `channels::blocks::no_level` gives patterns without a column (docs/DECISIONS.md).
pub fn encode(pattern: Pattern, from: Coder, bits: &[u8], out: &mut [u8]) -> Coder
    requires { Held pattern × Encodes (pattern_of pattern) from.register bits.now out.old from.at }
    ensures { Encoded (pattern_of pattern) from.register bits.now out.old from.at result.register result.at out.new }
{
    encode_segment(pattern.columns(), from, bits, out)
}
