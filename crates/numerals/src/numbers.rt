// Fourteen decimal numbers in a line, separated by single spaces.
ghost use Rattle.std.specs.Prelude.{◌≡◌, ◌+◌, ◌*◌, ◌<◌, IfSome};
ghost use Rattle.numerals.specs.Numbers.{is_digit, numbers_line};
ghost use Rattle.numerals.specs.Clauses.{held, stepped, Kept, Scanned};

use words::text::Text;

// Whether a byte is a decimal digit.
#[tactic(auto, unfolding(crate::specs::Numbers::is_digit))]
pub fn is_digit(byte: u8) -> bool
    ensures { result ≡ is_digit byte }
{
    byte.is_ascii_digit()
}

// A number with a digit more; one that 32 bits do not hold counts as the greatest of them.
#[tactic(auto, unfolding(crate::specs::Clauses::held))]
pub fn grown(value: u32, digit: u8) -> u32
    requires { digit < 10 }
    ensures { result ≡ held (10 * value + digit) }
{
    value.saturating_mul(10).saturating_add(u32::from(digit))
}

// The decimal numbers of a line, as far as it is read.
// Stays: `at` is the place of the number at hand, and counts no values: a line that is read to its end gives all fourteen. `muxjobs` `Reading` looks alike, but
// parts numbers by commas, ends at any of them and refuses one that is too large: a step for both would be handed the byte, the count and how a number grows.
#[derive(Clone, Copy)]
pub struct Scan {
    pub values: [u32; 14],
    // The place of the number at hand, and whether it has a digit.
    pub at: usize,
    pub digit: bool,
}

impl Scan {
    // One byte of a line: a digit goes behind those of the number at hand, a space begins the next, anything else is out of place.
    #[tactic(auto, using(crate::proofs::Scanning::digit_range), unfolding(crate::specs::Clauses::stepped, crate::specs::Clauses::with_digit, crate::specs::Clauses::with_space))]
    fn step(mut self, byte: u8) -> Option<Scan>
        requires { Kept self }
        ensures value { result ≡ stepped self byte }
        ensures kept { IfSome result Kept }
    {
        if is_digit(byte) {
            self.values[self.at] = grown(self.values[self.at], byte - b'0');
            self.digit = true;
            return Some(self);
        }
        if (byte == b' ') & (self.digit & (self.at < 13)) {
            self.at += 1;
            self.digit = false;
            return Some(self);
        }
        None
    }
}

// The fourteen numbers that a line is.
pub fn numbers(line: &[u8]) -> Option<[u32; 14]>
    ensures { Scanned line.now result }
{
    let mut scan = Scan {
        values: [0; 14],
        at: 0,
        digit: false,
    };
    for byte in line {
        scan = scan.step(*byte)?;
    }
    if scan.digit & (scan.at == 13) {
        return Some(scan.values);
    }
    None
}

// The line of fourteen numbers.
pub fn numbers_line(numbers: &[u32; 14]) -> Text
    ensures { result ≡ numbers_line numbers.now }
{
    let mut text = Text::new();
    text.put_decimal(u64::from(numbers[0]));
    for n in &numbers[1..] {
        text.put(b" ");
        text.put_decimal(u64::from(*n));
    }
    text.put(b"\n");
    text
}
