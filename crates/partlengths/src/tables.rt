// The tables of 001: cell counts, code rates and common denominators. Each accessor takes any numbers.
ghost use Rattle.std.specs.Prelude.{◌≡◌, length, get_or};
ghost use Rattle.partlengths.specs.Cells.{entry, mux_table, super_table, sdc_table};
ghost use Rattle.partlengths.specs.Rates.{rates, common_denominator, vspp_rate};
ghost use Rattle.partlengths.specs.Clauses.{looked_up};

// Rows for modes A to D, columns for occupancy 0 to 5, 0 for a pairing that is not allowed. 01 "Settings".
const N_MUX: [[usize; 6]; 4] = [
    [1259, 1422, 2632, 2959, 5464, 6118],
    [966, 1110, 2051, 2337, 4249, 4774],
    [0, 0, 0, 1844, 0, 3867],
    [0, 0, 0, 1226, 0, 2606],
];

const N_SFA: [[usize; 6]; 4] = [
    [3778, 4268, 7897, 8877, 16394, 18354],
    [2900, 3330, 6153, 7013, 12747, 14323],
    [0, 0, 0, 5532, 0, 11603],
    [0, 0, 0, 3679, 0, 7819],
];

// 001 table 63.
const N_SDC: [[usize; 6]; 4] = [
    [167, 190, 359, 405, 754, 846],
    [130, 150, 282, 322, 588, 662],
    [0, 0, 0, 288, 0, 607],
    [0, 0, 0, 152, 0, 332],
];

// Code rates by their numbers in table 65, those that FAC and SDC have.
// Stays: a rate is its place in table 65, by which a table that is loaded counts too, and no variant would say more.
pub const R1_3: usize = 2;

pub const R1_2: usize = 4;

pub const R3_5: usize = 6;

pub const R2_3: usize = 7;

// An FAC block: 72 bits and 65 cells.
pub const FAC_BITS: usize = 72;

pub const FAC_CELLS: usize = 65;

pub const FAC_BYTES: usize = 9;

pub const FAC_NUMBERS: usize = 130;

// 001 tables 68, 71, 69 and 67: the rates of each MSC mode by protection level, in the order of partition.
const RATES: [[&[usize]; 4]; 4] = [
    [&[0, 4, 9], &[2, 7, 10], &[4, 9, 11], &[7, 10, 12]],
    [
        &[0, 1, 4, 6, 9],
        &[2, 3, 7, 8, 10],
        &[4, 5, 9, 11, 11],
        &[7, 7, 10, 12, 12],
    ],
    [&[1, 6], &[3, 8], &[5, 11], &[7, 12]],
    [&[2, 7], &[4, 9], &[], &[]],
];

// The tables' last columns, RYlcm.
const COMMON_DENOMINATORS: [[usize; 4]; 4] = [
    [4, 15, 8, 45],
    [20, 165, 56, 45],
    [10, 11, 56, 9],
    [3, 4, 1, 1],
];

// 001 table 70.
const VSPP_RATES: [usize; 4] = [4, 5, 6, 7];

// The entry of a table by its row and column, or what stands for every other pair.
#[tactic(auto, unfolding(crate::specs::Clauses::looked_up))]
fn entry<T: Copy, const COLUMNS: usize>(table: &[[T; COLUMNS]], row: u8, column: u8, other: T) -> T
    ensures { result ≡ looked_up table.now row column other }
{
    match table.get(usize::from(row)) {
        Some(entries) => entries.get(usize::from(column)).copied().unwrap_or(other),
        None => other,
    }
}

// N_MUX: MSC cells per multiplex frame.
#[tactic(auto, unfolding(crate::specs::Clauses::looked_up, crate::specs::Cells::entry, crate::specs::Cells::mux_table))]
pub fn n_mux(mode: u8, occupancy: u8) -> usize
    ensures { result ≡ entry mux_table mode occupancy }
{
    entry(&N_MUX, mode, occupancy, 0)
}

// N_SFA: MSC cells per super frame.
#[tactic(auto, unfolding(crate::specs::Clauses::looked_up, crate::specs::Cells::entry, crate::specs::Cells::super_table))]
pub fn n_sfa(mode: u8, occupancy: u8) -> usize
    ensures { result ≡ entry super_table mode occupancy }
{
    entry(&N_SFA, mode, occupancy, 0)
}

// N_SDC: cells of an SDC block.
#[tactic(auto, unfolding(crate::specs::Clauses::looked_up, crate::specs::Cells::entry, crate::specs::Cells::sdc_table))]
pub fn n_sdc(mode: u8, occupancy: u8) -> usize
    ensures { result ≡ entry sdc_table mode occupancy }
{
    entry(&N_SDC, mode, occupancy, 0)
}

// The rates of the levels of the standard protected part.
pub fn rates(msc: u8, level: u8) -> &'static [usize]
    ensures { result.now ≡ rates msc level }
{
    entry(&RATES, msc, level, &[])
}

// The rate of the kth level of the standard protected part.
pub fn rate(msc: u8, level: u8, k: usize) -> usize
    ensures { result ≡ get_or (rates msc level) k 0 }
{
    rates(msc, level).get(k).copied().unwrap_or(0)
}

// How many levels the standard protected part has.
pub fn rate_count(msc: u8, level: u8) -> usize
    ensures { result ≡ length (rates msc level) }
{
    rates(msc, level).len()
}

// RYlcm.
pub fn common_denominator(msc: u8, level: u8) -> usize
    ensures { result ≡ common_denominator msc level }
{
    entry(&COMMON_DENOMINATORS, msc, level, 1)
}

// The rate of the very strongly protected part.
#[tactic(auto, unfolding(crate::specs::Rates::vspp_rate))]
pub fn vspp_rate(level: u8) -> usize
    ensures { result ≡ vspp_rate level }
{
    VSPP_RATES.get(usize::from(level)).copied().unwrap_or(0)
}
