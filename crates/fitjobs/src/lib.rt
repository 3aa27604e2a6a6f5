// The desk's job that says how long a number of bytes takes. 02, S-14.
#![tactic(auto)]

pub mod argument;
pub mod text;

// A word of decimal digits, as far as it is read.
#[derive(Clone, Copy)]
pub struct Count {
    pub value: u32,
    // Whether every byte was a digit and 32 bits hold the number.
    // Stays: `argument::read_through` promises the number of every word, so that no `Option` of it says it.
    pub good: bool,
}
