// BYTES, the third argument of `desk fit`.
ghost use Rattle.std.specs.Prelude.{◌≡◌, false};
ghost use Rattle.std.specs.Option.{unwrap_or};
ghost use Rattle.fitjobs.specs.Argument.{with_byte, count_in, counted};

use crate::Count;
use numerals::numbers::is_digit;

impl Count {
    // A byte behind the digits, unless it is no digit or 32 bits do not hold the number.
    fn with_byte(self, byte: u8) -> Option<Count>
        ensures { unwrap_or result (record { value = self.value; good = false }) ≡ with_byte self byte }
    {
        if !is_digit(byte) {
            return None;
        }
        let tens = self.value.checked_mul(10)?;
        let value = tens.checked_add(u32::from(byte - b'0'))?;
        Some(Count { value, ..self })
    }
}

// The number of a word as far as it is read: past each byte that is no digit, and each digit that 32 bits have no room for.
pub fn read_through(word: &[u8]) -> Count
    ensures { result ≡ count_in word.now }
{
    let mut count = Count {
        value: 0,
        good: true,
    };
    for byte in word {
        count = count.with_byte(*byte).unwrap_or(Count {
            good: false,
            ..count
        });
    }
    count
}

// The number of a word of digits, if 32 bits hold it.
pub fn count(word: &[u8]) -> Option<u32>
    ensures { result ≡ counted (count_in word.now) }
{
    let read = read_through(word);
    read.good.then_some(read.value)
}
