// Answers of the lengths and sizes as the numbers that a caller lends, for a caller outside that has the refusal as a byte. Nothing here calls them.
ghost use Rattle.std.specs.Prelude.{◌≡◌, length};
ghost use Rattle.settingbytes.specs.Numbers.{yielded, lengths_into, sizes_into};
ghost use Rattle.settingbytes.specs.Numbered.{numbered_lengths, numbered_sizes};

use crate::numbers;
use refusal::answer;
use settings::{Lengths, Sizes};

// Values beside the number of a refusal: 0 is acceptance, and every other number refuses.
// Stays: a Result has no Err for a number that is no refusal's.
#[derive(Clone, Copy)]
pub struct Numbered<T> {
    pub refusal: u8,
    pub values: T,
}

// Lengths into the caller's numbers, which a refusal leaves as they were.
// Stays: `put_sizes` calls another function on numbers of another type; one function for both would take a closure over the numbers.
#[tactic(auto, unfolding(crate::specs::Numbers::lengths_into))]
pub fn put_lengths(l: Numbered<Lengths>, numbers: &mut [u16]) -> u8
    requires { length numbers.old ≡ 5 }
    ensures { yielded result numbers.new ≡ lengths_into (numbered_lengths l) numbers.old }
{
    match l.refusal {
        0 => answer(numbers::put_lengths(Ok(l.values), numbers)),
        number => number,
    }
}

// Sizes into the caller's numbers, which a refusal leaves as they were.
// Stays: `put_lengths` calls another function; one function for both would take a closure over the numbers.
#[tactic(auto, unfolding(crate::specs::Numbers::sizes_into))]
pub fn put_sizes(z: Numbered<Sizes>, numbers: &mut [u32]) -> u8
    requires { length numbers.old ≡ 6 }
    ensures { yielded result numbers.new ≡ sizes_into (numbered_sizes z) numbers.old }
{
    match z.refusal {
        0 => answer(numbers::put_sizes(Ok(z.values), numbers)),
        number => number,
    }
}
