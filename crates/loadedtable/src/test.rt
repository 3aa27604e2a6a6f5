// Whether a table that was loaded passes. 02 S-11.
ghost use Rattle.std.specs.Prelude.{◌≡◌, ◌≤◌, ◌<◌, length, get_or, eqb, ltb};
ghost use Rattle.lists.specs.Lists.{table, total};
ghost use Rattle.lists.specs.Bools.{every};
ghost use Rattle.patterns.specs.Loaded.{table_size, rate_passes, passes};

use patterns::table::{TABLE_SIZE, begins, denominator, numerator};

// Every number is 0 or 1.
fn bits_only(kept: &[u8; TABLE_SIZE]) -> bool
    ensures { result ≡ every (table (λ k. ltb (get_or kept.now k 0) 2) 0 (length kept.now)) }
{
    kept.iter().all(|number| *number < 2)
}

// Every number of a row is 1.
fn all_ones(row: &[u8]) -> bool
    ensures { result ≡ every (table (λ k. eqb (get_or row.now k 0) 1) 0 (length row.now)) }
{
    row.iter().all(|number| *number == 1)
}

// The sum of a rate's numbers.
fn sum(numbers: &[u8]) -> usize
    requires { length numbers.now ≤ table_size }
    ensures { result ≡ total numbers.now }
{
    numbers.iter().map(|number| usize::from(*number)).sum()
}

// Stays: the rate is a number as in `patterns::table`, whose line says why.
// Row B0 of a rate is all ones, and it keeps as many bits as its denominator says.
fn rate_passes(kept: &[u8; TABLE_SIZE], rate: usize) -> bool
    requires { rate < 13 }
    ensures { result ≡ rate_passes kept.now rate }
{
    let at = begins(rate);
    let width = numerator(rate);
    all_ones(&kept[at..at + width]) && sum(&kept[at..at + 4 * width]) == denominator(rate)
}

// Every rate passes.
fn rates_pass(kept: &[u8; TABLE_SIZE]) -> bool
    ensures { result ≡ every (table (rate_passes kept.now) 0 13) }
{
    (0..13).all(|rate| rate_passes(kept, rate))
}

// Whether a table passes.
pub fn passes(kept: &[u8]) -> bool
    ensures { result ≡ passes kept.now }
{
    match <&[u8; TABLE_SIZE]>::try_from(kept) {
        Ok(whole) => bits_only(whole) && rates_pass(whole),
        Err(_) => false,
    }
}
