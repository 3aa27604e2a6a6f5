// DESCRIPTION, the third argument of `desk mux` and `desk demux`.
ghost use Rattle.std.specs.Prelude.{◌≡◌, ◌<◌, ◌≤◌, IfSome};
ghost use Rattle.std.specs.Option.{unwrap_or};
ghost use Rattle.muxjobs.specs.Argument.{spoilt, with_digit, read, read_word, description_of, description_in};

use crate::Description;
use multiplex::description::described;
use numerals::numbers::is_digit;

// A word of decimal numbers joined by commas, as far as it is read.
// Stays: `at` is the place of the number at hand, and a `Vec` would take the numbers from the heap, from which this project takes nothing. `numerals` `Scan`
// looks alike, but parts numbers by spaces, takes fourteen and holds one that is too large: a step for both would be handed the byte, the count and how a
// number grows.
#[derive(Clone, Copy)]
pub struct Reading {
    pub values: [u16; 8],
    pub at: usize,
    // Whether the number at hand has a digit.
    pub digit: bool,
    // Whether every byte was in place and no number too large.
    // Stays: `read_through` promises the numbers of every word, so that no `Option` of them says it.
    pub good: bool,
}

impl Reading {
    // A digit behind those of the number at hand, unless 16 bits do not hold the number.
    #[tactic(auto, unfolding(crate::specs::Argument::with_digit, crate::specs::Argument::placed))]
    fn with_digit(mut self, digit: u8) -> Option<Reading>
        requires at_bound { self.at < 8 }
        requires digit_bound { digit < 10 }
        ensures value { unwrap_or result (spoilt self) ≡ with_digit self digit }
        ensures kept { IfSome result (λ r. r.at < 8) }
    {
        let tens = self.values[self.at].checked_mul(10)?;
        self.values[self.at] = tens.checked_add(u16::from(digit))?;
        self.digit = true;
        Some(self)
    }

    // One byte: a digit goes behind those of the number at hand, a comma begins the next, anything else is out of place.
    #[tactic(auto, using(numerals::proofs::Scanning::digit_range), unfolding(crate::specs::Argument::read, crate::specs::Argument::with_comma))]
    fn read(mut self, byte: u8) -> Option<Reading>
        requires { self.at < 8 }
        ensures value { unwrap_or result (spoilt self) ≡ read self byte }
        ensures kept { IfSome result (λ r. r.at < 8) }
    {
        if is_digit(byte) {
            return self.with_digit(byte - b'0');
        }
        if (byte == b',') & (self.digit & (self.at < 7)) {
            self.at += 1;
            self.digit = false;
            return Some(self);
        }
        None
    }

    // The same numbers, of a word that is no description.
    fn spoilt(self) -> Reading
        ensures { result ≡ spoilt self }
    {
        Reading {
            good: false,
            ..self
        }
    }
}

// The numbers of a word, past each byte out of place and each digit that 16 bits have no room for.
fn read_word(word: &[u8]) -> Reading
    ensures value { result ≡ read_word word.now }
    ensures at_bound { result.at < 8 }
{
    let mut reading = Reading {
        values: [0; 8],
        at: 0,
        digit: false,
        good: true,
    };
    for byte in word {
        reading = reading.read(*byte).unwrap_or(reading.spoilt());
    }
    reading
}

// The numbers of a word as far as they are read, and how many of them count: none where the word is no description.
pub fn read_through(word: &[u8]) -> Description
    ensures value { result ≡ description_of word.now }
    ensures count_bound { result.count ≤ 8 }
{
    let reading = read_word(word);
    let count = reading.at + 1;
    let whole = (word.len() < 64) & ((reading.good & reading.digit) & described(count));
    let values = reading.values;
    let count = if whole { count } else { 0 };
    Description { values, count }
}

// The description that a word is.
#[tactic(auto, unfolding(crate::specs::Argument::description_in))]
pub fn description(word: &[u8]) -> Option<Description>
    ensures value { result ≡ description_in word.now }
    ensures count_bound { IfSome result (λ d. d.count ≤ 8) }
{
    let read = read_through(word);
    if read.count == 0 {
        return None;
    }
    Some(read)
}
