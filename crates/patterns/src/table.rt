// The table of thirteen patterns, the standard's or one that was loaded, and the tail's twelve. 001 tables 65 and 66; 02 S-11.
ghost use Rattle.std.specs.Prelude.{◌≡◌, ◌+◌, ◌*◌, ◌≤◌, ◌<◌};
ghost use Rattle.patterns.specs.Patterns.{RX, RY, table65, begins, entry, pattern, tail_pattern};
ghost use Rattle.patterns.specs.Loaded.{table_size, Allowed};
ghost use Rattle.patterns.specs.Clauses.{column_from, pattern_from};

use crate::Pattern;
use lists::buffers::buffer;

// The numbers of a table.
pub const TABLE_SIZE: usize = 196;

// Stays: a tuple for each rate, since a struct would take a line for each of its fields.
// Table 65, smallest rate first: numerator, denominator, where the numbers of a rate begin, and which bits its rows B0 to B3 keep, first column highest.
const RATES: [(usize, usize, usize, [u8; 4]); 13] = [
    (1, 4, 0, [0b1, 0b1, 0b1, 0b1]),
    (3, 10, 4, [0b111, 0b111, 0b111, 0b100]),
    (1, 3, 16, [0b1, 0b1, 0b1, 0b0]),
    (4, 11, 20, [0b1111, 0b1111, 0b1110, 0b0000]),
    (1, 2, 36, [0b1, 0b1, 0b0, 0b0]),
    (4, 7, 40, [0b1111, 0b1010, 0b0100, 0b0000]),
    (3, 5, 56, [0b111, 0b101, 0b000, 0b000]),
    (2, 3, 68, [0b11, 0b10, 0b00, 0b00]),
    (8, 11, 76, [0b11111111, 0b10010010, 0b00000000, 0b00000000]),
    (3, 4, 108, [0b111, 0b100, 0b000, 0b000]),
    (4, 5, 120, [0b1111, 0b1000, 0b0000, 0b0000]),
    (7, 8, 136, [0b1111111, 0b1000000, 0b0000000, 0b0000000]),
    (8, 9, 164, [0b11111111, 0b10000000, 0b00000000, 0b00000000]),
];

// RX: the columns of a rate's pattern.
#[tactic(auto, using(crate::proofs::Loaded::width_high), unfolding(crate::specs::Patterns::RX, crate::specs::Patterns::numerators))]
pub fn numerator(rate: usize) -> usize
    ensures { (result ≡ RX rate) × (result ≤ 8) }
{
    RATES.get(rate).map_or(1, |r| r.0)
}

// RY: the bits that a rate's pattern keeps.
#[tactic(auto, unfolding(crate::specs::Patterns::RY, crate::specs::Patterns::denominators))]
pub fn denominator(rate: usize) -> usize
    ensures { result ≡ RY rate }
{
    RATES.get(rate).map_or(1, |r| r.1)
}

// Where the numbers of a rate begin.
// Stays: rates are numbers in the tables of `partlengths` and in the definitions of these, and `numerator` and `denominator` take any; a type for a rate
// of the table would be wrapped around every entry there, and taken off at each of these calls.
pub fn begins(rate: usize) -> usize
    requires { rate < 13 }
    ensures { (result ≡ begins rate) × (result + 4 * RX rate ≤ table_size) }
{
    RATES[rate].2
}

// The standard's number in a row and column of a rate.
// Stays: the loops below give the three numbers, which have their bounds there; a type for them would be made for this call alone.
fn standard_number(rate: usize, row: usize, column: usize) -> u8
    requires { (rate < 13) × ((row < 4) × (column < RX rate)) }
    ensures { result ≡ entry table65 rate row column }
{
    let rows = RATES[rate].3;
    let width = numerator(rate);
    (rows[row] >> (width - 1 - column)) % 2
}

// The standard's table.
pub fn standard_table() -> [u8; TABLE_SIZE]
    ensures { result ≡ table65 }
{
    let mut kept: [u8; TABLE_SIZE] = buffer(0);
    for rate in 0..RATES.len() {
        let at = begins(rate);
        let width = numerator(rate);
        for row in 0..4 {
            for column in 0..width {
                kept[at + row * width + column] = standard_number(rate, row, column);
            }
        }
    }
    kept
}

// A column from its numbers, which stand `width` apart.
// Stays: `channels::Scheme` has the caller's bytes, which may fail the test (refusal 23); a type for tables that pass would be made of them for each block.
#[tactic(auto, using(crate::proofs::Loaded::low), unfolding(crate::specs::Clauses::column_from))]
fn column(kept: &[u8; TABLE_SIZE], at: usize, width: usize) -> u8
    requires { Allowed kept.now × (at + 3 * width < table_size) }
    ensures { result ≡ column_from kept.now at width }
{
    let low = kept[at] + 2 * kept[at + width];
    let high = kept[at + 2 * width] + 2 * kept[at + 3 * width];
    low + 4 * high
}

// The pattern of a rate in a table.
// Stays: the rate as for `begins`, and the table as for `column`; `nearest` and `channels` hand in numbers and bytes.
pub fn pattern(kept: &[u8; TABLE_SIZE], rate: usize) -> Pattern
    requires { Allowed kept.now × (rate < 13) }
    ensures { result ≡ pattern_from (pattern kept.now rate) }
{
    let width = numerator(rate);
    let at = begins(rate);
    let mut columns = [0u8; 8];
    for i in 0..width {
        columns[i] = column(kept, at + i, width);
    }
    Pattern { columns, width }
}

// Table 66: the kept bits of the tail's six columns by r.
const TAILS: [[u8; 8]; 12] = [
    [3, 3, 3, 3, 3, 3, 0, 0],
    [7, 3, 3, 3, 3, 3, 0, 0],
    [7, 3, 3, 7, 3, 3, 0, 0],
    [7, 7, 3, 7, 3, 3, 0, 0],
    [7, 7, 3, 7, 7, 3, 0, 0],
    [7, 7, 7, 7, 7, 3, 0, 0],
    [7, 7, 7, 7, 7, 7, 0, 0],
    [15, 7, 7, 7, 7, 7, 0, 0],
    [15, 7, 7, 15, 7, 7, 0, 0],
    [15, 15, 7, 15, 7, 7, 0, 0],
    [15, 15, 7, 15, 7, 15, 0, 0],
    [15, 15, 15, 15, 7, 15, 0, 0],
];

// The pattern of the tail's six bits for remainder r.
pub fn tail_pattern(r: usize) -> Pattern
    requires { r < 12 }
    ensures { result ≡ pattern_from (tail_pattern r) }
{
    Pattern {
        columns: TAILS[r],
        width: 6,
    }
}
