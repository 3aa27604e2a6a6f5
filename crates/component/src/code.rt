// The component code bit by bit: coded bits of a segment, the segment's bits from them, and how many coded bits there are.
// Stays, in this module: slices stand one by one, since a clause would name one in a struct `rows.now.pattern.now` and not `pattern.now`.
ghost use Rattle.std.specs.Prelude.{◌≡◌, cond, [], ◌∷◌, ◌+◌, ◌%◌, ◌^◌, ◌≤◌, ◌<◌, length, get_or, ltb};
ghost use Rattle.std.proofs.lemmas.List.Edits.{sets};
ghost use Rattle.std.specs.Int.Count.{ones};
ghost use Rattle.component.specs.Register.{next, parity, parities};
ghost use Rattle.component.specs.Codeword.{kept};
ghost use Rattle.patterns.specs.Patterns.{Sound};
ghost use Rattle.patterns.specs.Clauses.{pattern_of, Held};
ghost use Rattle.lists.specs.Lists.{table};
ghost use Rattle.component.specs.Decoding.{coded_length};
ghost use Rattle.component.specs.Bits.{Bits};
ghost use Rattle.component.specs.Coding.{Encodes, Encoded, Widths, Decodes, Decoded, register_at};

use patterns::Pattern;

// A coder's register, and the place of the next coded bit.
#[derive(Clone, Copy)]
pub struct Coder {
    pub register: u32,
    pub at: usize,
}

// The register with one more bit, the newest being the highest.
#[tactic(auto, unfolding(crate::specs::Register::next))]
pub fn next(register: u32, bit: u8) -> u32
    requires { (register < 128) × (bit < 2) }
    ensures { result ≡ next register bit }
{
    register / 2 + 64 * (bit as u32)
}

// The count of ones of the masked register, modulo 2.
#[tactic(auto, unfolding(crate::specs::Register::parity))]
pub fn parity(register: u32, mask: u32) -> u8
    ensures { result ≡ parity mask register }
{
    ((register & mask).count_ones() % 2) as u8
}

// The column after column i of a pattern.
// Stays: with `zip` and `pattern.iter().cycle()` the loop of `decode_columns` takes 20 instructions a bit in place of 19 (a sketch in Rust), and the proof of
// `count_columns` did not close: std says of a cycle's item where it stands in a round, and not where the iterator stands.
// `pointtests::next_modulo` promises a remainder, by which its definitions go; these go by `following`.
pub fn following(columns: usize, i: usize) -> usize
    requires { i < columns }
    ensures { result ≡ cond (ltb (i + 1) columns) (i + 1) 0 }
{
    if i + 1 < columns { i + 1 } else { 0 }
}

// A pattern that can be read back, and how many bits each of its columns keeps.
#[derive(Clone, Copy)]
pub struct Columns {
    pub pattern: Pattern,
    pub widths: [usize; 8],
    pub ghost held: { Held pattern },
    pub ghost known: { Widths (pattern_of pattern) widths },
}

impl Coder {
    // Writes one parity of the register, where the lowest digit of the column says that it is kept.
    fn keep(self, column: u8, mask: u32, out: &mut [u8]) -> Coder
        requires { self.at + column % 2 ≤ length out.old }
        ensures register_stays { result.register ≡ self.register }
        ensures next_place { result.at ≡ self.at + column % 2 }
        ensures written { out.new ≡ sets out.old self.at (kept column (parity mask self.register ∷ [])) }
    {
        if column % 2 == 0 {
            return self;
        }
        out[self.at] = parity(self.register, mask);
        Coder {
            at: self.at + 1,
            ..self
        }
    }

    // Writes the parities of the register that a column keeps.
    fn keep_column(self, column: u8, out: &mut [u8]) -> Coder
        requires { self.at + length (kept column (parities self.register)) ≤ length out.old }
        ensures register_stays { result.register ≡ self.register }
        ensures next_place { result.at ≡ self.at + length (kept column (parities self.register)) }
        ensures written { out.new ≡ sets out.old self.at (kept column (parities self.register)) }
    {
        let one = self.keep(column, 0o133, out);
        let two = one.keep(column / 2, 0o171, out);
        let three = two.keep(column / 2 / 2, 0o145, out);
        three.keep(column / 2 / 2 / 2, 0o133, out)
    }
}

// The coded bits of a segment, written to out from the coder's place on, by the columns of its pattern.
pub fn encode_columns(pattern: &[u8], from: Coder, bits: &[u8], out: &mut [u8]) -> Coder
    requires { Encodes pattern.now from.register bits.now out.old from.at }
    ensures { Encoded pattern.now from.register bits.now out.old from.at result.register result.at out.new }
{
    let mut coder = from;
    let mut i = 0;
    for bit in bits {
        coder.register = next(coder.register, *bit);
        coder = coder.keep_column(pattern[i], out);
        i = following(pattern.len(), i);
    }
    coder
}

// The register with bit k + 6 of some bits as its newest.
// Stays: bits are bytes that `encode` is lent, whose type must stay; a slice of another type would be a copy.
#[tactic(auto, unfolding(crate::specs::Coding::register_at))]
pub fn register_at(bits: &[u8], k: usize) -> u8
    requires { Bits bits.now × (k + 6 < length bits.now) }
    ensures { result ≡ register_at bits.now k }
{
    bits[k]
        + 2 * (bits[k + 1]
            + 2 * (bits[k + 2]
                + 2 * (bits[k + 3] + 2 * (bits[k + 4] + 2 * (bits[k + 5] + 2 * bits[k + 6])))))
}

// The input bit that gives b0 and the older bits. The mask has no digit at the bit before the newest, so that the register may be one step older.
fn newest(older: u32, first: u8) -> u8
    ensures { result ≡ (first + parity 0o133 older) % 2 }
{
    ((first as u32 + parity(older, 0o133) as u32) % 2) as u8
}

// How many bits a column keeps.
fn ones(column: u8) -> usize
    ensures { result ≡ ones column }
{
    column.count_ones() as usize
}

// How many bits each column keeps.
pub fn widths_of(columns: [u8; 8]) -> [usize; 8]
    ensures { (result ≡ table (λ i. ones (get_or columns i 0)) 0 8) × (length columns ≡ 8) }
{
    let mut widths = [0usize; 8];
    for i in 0..8 {
        widths[i] = ones(columns[i]);
    }
    widths
}

impl Columns {
    // Those of a pattern.
    // Stays: `Held` is no invariant of Pattern, since `channels::blocks::no_level` gives patterns without a column (docs/DECISIONS.md).
    pub fn new(pattern: Pattern) -> Columns
        requires { Held pattern }
        ensures { result.pattern ≡ pattern }
    {
        let widths = widths_of(pattern.columns);
        Columns { pattern, widths }
    }
}

// The bits of a segment from the coded bits from the coder's place on, by the columns of its pattern and their widths: as many as out is long.
// Stays: `Decodes` speaks of lent slices; a struct with it as its invariant would hold references, of which the line at the top speaks.
pub fn decode_columns(columns: Columns, from: Coder, coded: &[u8], out: &mut [u8]) -> Coder
    requires { Decodes (pattern_of columns.pattern) from.register coded.now from.at out.old }
    ensures { Decoded (pattern_of columns.pattern) from.register coded.now from.at (length out.old) result.register result.at out.new }
{
    let mut older = from.register / 2;
    let mut coder = from;
    let mut i = 0;
    for place in out.iter_mut() {
        let bit = newest(older, coded[coder.at]);
        *place = bit;
        older = coder.register / 4;
        coder.register = next(coder.register, bit);
        coder.at += columns.widths[i];
        i = following(columns.pattern.width, i);
    }
    coder
}

// How many coded bits n input bits give by the columns of a pattern, counted one by one.
pub fn count_columns(pattern: &[u8], n: usize) -> usize
    requires { Sound pattern.now × (coded_length pattern.now 0 n < 2 ^ 63) }
    ensures { result ≡ coded_length pattern.now 0 n }
{
    let mut sum = 0;
    let mut i = 0;
    for k in 0..n {
        sum += ones(pattern[i]);
        i = following(pattern.len(), i);
    }
    sum
}

// The same by whole rounds and what is left of one.
pub fn count_coded(pattern: &[u8], n: usize) -> usize
    requires { Sound pattern.now × (coded_length pattern.now 0 n < 2 ^ 63) }
    ensures { result ≡ coded_length pattern.now 0 n }
{
    let width = pattern.len();
    if n < width {
        return count_columns(pattern, n);
    }
    let round = count_columns(pattern, width);
    let rest = count_columns(pattern, n % width);
    n / width * round + rest
}

// How many coded bits n input bits give with a pattern.
// Stays: `Held` is no invariant of Pattern, since `channels::blocks::no_level` gives patterns without a column (docs/DECISIONS.md).
pub fn coded_length(pattern: Pattern, n: usize) -> usize
    requires { Held pattern × (coded_length (pattern_of pattern) 0 n ≤ 65536) }
    ensures { result ≡ coded_length (pattern_of pattern) 0 n }
{
    count_coded(pattern.columns(), n)
}
