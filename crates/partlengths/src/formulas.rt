// The formulas of lengths, 001 clause 7.2.1.1.
ghost use Rattle.std.specs.Prelude.{◌≡◌, ◌*◌, ◌-◌, ◌≤◌};
ghost use Rattle.partlengths.specs.Clauses.{Level, Whole, Rounds, share, shares};
ghost use Rattle.partlengths.specs.Formulas.{hierarchical, width, part_a, part_b, part_vspp, round_up, cells_a, sdc_bits};
ghost use Rattle.partlengths.specs.Rates.{rates};

use crate::tables;
use patterns::table::{denominator, numerator};

// Coded bits that a level has in n cells: two for each cell, but one in HMmix.
pub fn coded(msc: u8, n: u16) -> usize
    ensures value { result ≡ width msc * n }
    ensures upper_bound { result ≤ 2 * n }
{
    let n = n as usize;
    if msc == 1 { n } else { 2 * n }
}

// A level's input bits for so many coded bits.
pub fn share(coded: usize, rate: usize) -> usize
    ensures { result ≡ share coded rate }
{
    numerator(rate) * (coded / denominator(rate))
}

// The sum over the levels of the standard protected part.
pub fn shares(msc: u8, level: u8, coded: usize) -> usize
    requires { coded ≤ 131070 }
    ensures { result ≡ shares coded (rates msc level) }
{
    let mut sum = 0;
    for rate in tables::rates(msc, level) {
        sum += share(coded, *rate);
    }
    sum
}

// MSC modes 1 and 2 have a very strongly protected part.
pub fn hierarchical(msc: u8) -> bool
    ensures { result ≡ hierarchical msc }
{
    msc == 1 || msc == 2
}

// Coded bits without the twelve that the tail takes at least.
pub fn less_tail(coded: usize) -> usize
    ensures { result ≡ coded - 12 }
{
    coded.saturating_sub(12)
}

// The bits of n cells of part A.
// Stays: part A, part B and the very strong part each have a level and a count of cells of their own, so a struct would serve one call.
pub fn part_a(msc: u8, level: u8, n: u16) -> usize
    requires { Whole msc level n }
    ensures { result ≡ part_a msc level n }
{
    shares(msc, level, coded(msc, n))
}

// The bits of n cells of part B.
// Stays: part B has a level and cells of its own, and a struct of the three would be made for this call alone.
pub fn part_b(msc: u8, level: u8, n: u16) -> usize
    ensures { result ≡ part_b msc level n }
{
    shares(msc, level, less_tail(coded(msc, n)))
}

// The bits of the very strongly protected part of a frame of n cells.
// Stays: the very strong part has a level of its own, and a struct of the three would be made for this call alone.
pub fn part_vspp(msc: u8, level: u8, n: u16) -> usize
    ensures { result ≡ part_vspp msc level n }
{
    if hierarchical(msc) {
        return share(less_tail(coded(msc, n)), tables::vspp_rate(level));
    }
    0
}

// a / b, rounded towards plus infinity.
#[tactic(auto, using(crate::proofs::Parts::rounded_up), unfolding(crate::specs::Formulas::round_up))]
pub fn round_up(a: usize, b: usize) -> usize
    requires { Rounds a b }
    ensures { result ≡ round_up a b }
{
    a.div_ceil(b)
}

// N1: the smallest multiple of RYlcm for which part A's bits number at least 8X.
pub fn cells_a(msc: u8, level: u8, x: u16) -> usize
    requires { Level msc level }
    ensures { result ≡ cells_a msc level x }
{
    let step = tables::common_denominator(msc, level);
    let gain = shares(msc, level, coded(msc, step as u16));
    round_up(8 * x as usize, gain) * step
}

// The bits of an SDC block of n cells: R1/3 and R2/3 in 16-QAM, R1/2 in 4-QAM.
pub fn sdc_bits(sdc: u8, n: u16) -> usize
    ensures { result ≡ sdc_bits sdc n }
{
    let bits = less_tail(2 * n as usize);
    if sdc == 0 {
        return share(bits, tables::R1_3) + share(bits, tables::R2_3);
    }
    if sdc == 1 {
        return share(bits, tables::R1_2);
    }
    0
}
