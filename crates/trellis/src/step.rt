// One layer of the trellis: the least disagreement after every register, and the choice for each. 02, S-9.
// Stays, in this module: values stay whole beside a place, as the clauses name them (`drop at values`): what `step` promises is of all bits from j on.
// With a slice from the place on, each of five calls would lend `take (length values - at) (drop at values)`, and its proof turn that back.
ghost use Rattle.std.specs.Prelude.{◌≡◌, ◌+◌, ◌/◌, ◌≤◌, [], length, get_or, drop};
ghost use Rattle.component.specs.Register.{parities};
ghost use Rattle.component.specs.Codeword.{tail_bits};
ghost use Rattle.trellis.specs.Nearest.{differs, disagreement};
ghost use Rattle.trellis.specs.Clauses.{along, Costs, Weighs, Steps, Stepped};

use component::code::parity;
use lists::buffers::buffer;

// The register has seven bits, of which the next one keeps six.
pub const STATES: usize = 64;

// Whether a value is known and is not the bit.
#[tactic(auto, unfolding(crate::specs::Nearest::differs))]
fn differs(value: u8, bit: u8) -> u16
    ensures { result ≡ differs value bit }
{
    (value != 2 && value != bit) as u16
}

// How many of the four values from `at` on disagree with the parities of a register.
fn column_cost(values: &[u8], at: usize, register: u32) -> u16
    requires { at + 4 ≤ length values.now }
    ensures { result ≡ disagreement (drop at values.now) (parities register) }
{
    let one = differs(values[at], parity(register, 0o133));
    let two = differs(values[at + 1], parity(register, 0o171));
    let three = differs(values[at + 2], parity(register, 0o145));
    let four = differs(values[at + 3], parity(register, 0o133));
    one + two + three + four
}

// The disagreement of the six tail bits after a register.
fn tail_cost(values: &[u8], at: usize, register: u32) -> u16
    requires { at + 24 ≤ length values.now }
    ensures { result ≡ along register tail_bits (drop at values.now) }
{
    let mut register = register;
    let mut sum: u16 = 0;
    for i in 0..6 {
        register /= 2;
        sum += column_cost(values, at + 4 * i, register);
    }
    sum
}

// The same after every register: two registers that differ in the oldest bit go on alike.
pub fn tail_costs(values: &[u8], at: usize) -> [u16; STATES]
    requires { at + 24 ≤ length values.now }
    ensures { Costs [] (drop at values.now) result }
{
    let mut costs: [u16; STATES] = buffer(0);
    for s in 0..STATES {
        costs[s] = tail_cost(values, at, 2 * s as u32);
    }
    costs
}

// The disagreement of a way: at the register that its first bit gives, and what is left from there.
fn way_cost(values: &[u8], at: usize, costs: &[u16; STATES], register: u32) -> u16
    requires { Weighs values.now at costs.now register }
    ensures { result ≡ disagreement (drop at values.now) (parities register) + get_or costs.now (register / 2) 0 }
{
    let rest = costs[(register / 2) as usize];
    column_cost(values, at, register) + rest
}

// The least disagreement after every register, and the choices that lead there, one binary digit for each two registers.
#[derive(Clone, Copy)]
pub struct Layer {
    pub costs: [u16; STATES],
    pub choices: u64,
}

// One bit further to the front: the costs and choices at bit j, from the costs after it. Of equals the bit is 0 before dispersal.
pub fn step(flips: &[u8], values: &[u8], j: usize, costs: &[u16; STATES]) -> Layer
    requires { Steps flips.now values.now j costs.now }
    ensures { Stepped flips.now values.now j result.costs result.choices }
{
    let flip = flips[j] as u32;
    let mut least: [u16; STATES] = buffer(0);
    let mut choices: u64 = 0;
    for s in (0..STATES).rev() {
        let zero = way_cost(values, 4 * j, costs, s as u32 + 64 * flip);
        let one = way_cost(values, 4 * j, costs, s as u32 + 64 * ((1 + flip) % 2));
        least[s] = zero.min(one);
        choices = 2 * choices + (one < zero) as u64;
    }
    Layer {
        costs: least,
        choices,
    }
}
