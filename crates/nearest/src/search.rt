// The search: the least disagreement from the end for each register, with a choice for each, and then forward by the choices. 02, S-9.
ghost use Rattle.std.specs.Prelude.{◌≡◌, ◌/◌, ◌^◌, ◌%◌, ◌<◌, length};
ghost use Rattle.patterns.specs.Clauses.{pattern_of};
ghost use Rattle.nearest.specs.Clauses.{led, restored, Chooses, Chosen, Follows, Searches, SearchesWith, Found};

use crate::values::restore;
use component::code::next;
use patterns::Pattern;
use trellis::step::{step, tail_costs};

// The choices at every bit, from the last to the first; the least disagreement from register 0.
fn choose(flips: &[u8], values: &[u8], choices: &mut [u64]) -> u16
    requires { Chooses flips.now values.now choices.old }
    ensures { Chosen flips.now values.now choices.new result }
{
    let n = flips.len();
    let mut costs = tail_costs(values, 4 * n);
    for j in (0..n).rev() {
        let layer = step(flips, values, j, &costs);
        costs = layer.costs;
        choices[j] = layer.choices;
    }
    costs[0]
}

// A binary digit of a number.
fn digit(word: u64, place: u32) -> u8
    requires { place < 64 }
    ensures { result ≡ word / 2 ^ place % 2 }
{
    ((word >> place) % 2) as u8
}

// The bits that the choices lead through from register 0.
fn follow(flips: &[u8], choices: &[u64], out: &mut [u8])
    requires { Follows flips.now choices.now out.old }
    ensures { out.new ≡ led 0 flips.now choices.now }
{
    let mut register: u32 = 0;
    for j in 0..flips.len() {
        let bit = digit(choices[j], register / 2);
        out[j] = bit;
        register = next(register, (bit + flips[j]) % 2);
    }
}

// The most bits of one SDC level.
const MOST_BITS: usize = 1120;

// Four values for each of them, and for the tail's six.
const MOST_VALUES: usize = 4 * MOST_BITS + 24;

// The choices at every bit from the values received, and the least disagreement.
fn choose_from(
    pattern: &[u8],
    tail: &[u8],
    flips: &[u8],
    received: &[u8],
    choices: &mut [u64],
) -> u16
    requires { Searches pattern.now tail.now flips.now choices.old }
    ensures { Chosen flips.now (restored pattern.now tail.now (length flips.now)
        received.now) choices.new result }
{
    let m = 4 * flips.len() + 24;
    let mut values = [0u8; MOST_VALUES];
    restore(pattern, tail, received, &mut values[0..m]);
    choose(flips, &values[0..m], choices)
}

// The bits whose coded bits disagree with the fewest values received, and that number: `pattern` and `tail` puncture, and `flips` are added before coding.
pub fn search(pattern: &[u8], tail: &[u8], flips: &[u8], received: &[u8], out: &mut [u8]) -> u16
    requires { Searches pattern.now tail.now flips.now out.old }
    ensures { Found pattern.now tail.now flips.now received.now out.new result }
{
    let n = flips.len();
    let mut choices = [0u64; MOST_BITS];
    let count = choose_from(pattern, tail, flips, received, &mut choices[0..n]);
    follow(flips, &choices[0..n], out);
    count
}

// The same with patterns as they are held.
pub fn search_with(p: Pattern, t: Pattern, flips: &[u8], received: &[u8], out: &mut [u8]) -> u16
    requires { SearchesWith p t flips.now out.old }
    ensures { Found (pattern_of p) (pattern_of t) flips.now received.now out.new result }
{
    search(p.columns(), t.columns(), flips, received, out)
}
