// Bits dispersed. 01 "Dispersal".
ghost use Rattle.std.specs.Prelude.{◌≡◌};
ghost use Rattle.block.specs.Dispersal.{dispersed};
ghost use Rattle.dispersal.specs.Clauses.{Adds};

use crate::sequence::{PERIOD, place_in_period, whole_period};

// Bits added modulo 2 in place to those of one period from place `at` on.
fn add_sequence(sequence: &[u8], at: usize, bits: &mut [u8])
    requires { Adds sequence.now at bits.old }
    ensures { bits.new ≡ dispersed at bits.old }
{
    for i in 0..bits.len() {
        bits[i] = (bits[i] % 2 + sequence[at + i]) % 2;
    }
}

// Bits added modulo 2 to the sequence in place: bit i to p(treated + i). What is left of a period, and then one period after another, so that no bit
// waits for the one before it.
pub fn disperse(treated: u16, bits: &mut [u8])
    ensures { bits.new ≡ dispersed treated bits.old }
{
    let sequence = whole_period();
    let at = place_in_period(treated);
    let first = (PERIOD - at).min(bits.len());
    add_sequence(&sequence, at, &mut bits[0..first]);
    for i in (first..bits.len()).step_by(PERIOD) {
        let end = (i + PERIOD).min(bits.len());
        add_sequence(&sequence, 0, &mut bits[i..end]);
    }
}
