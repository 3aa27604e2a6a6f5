// The general search at short lengths over all rates and tail rows, a line for each rate and length with the digest of what it finds, in the order of
// second/README.md, "nearest". The stored lines are those of the second program, which tries all bits.
#![tactic(auto)]

ghost use Rattle.std.specs.Prelude.{◌≡◌, ◌≤◌, ◌<◌, length};
ghost use Rattle.check_nearest.specs.Lists.{Below, Lends};

use nearest::search::search_with;
use patterns::table::{pattern, standard_table, tail_pattern};
use vectors::text::print;
use vectors::{digests, draws};

// The state of the generator, and the digest so far.
#[derive(Clone, Copy)]
struct Place {
    x: u64,
    digest: u64,
}

// Every value is reduced modulo m.
fn reduce(values: &mut [u8], m: u8)
    requires { 0 < m }
    ensures { (length values.new ≡ length values.old) × Below m values.new }
{
    for value in values.iter_mut() {
        *value %= m;
    }
}

// The digest with all bits taken.
fn of_bits(mut d: u64, bits: &[u8]) -> u64 {
    for bit in bits {
        d = digests::taken(d, u64::from(*bit));
    }
    d
}

// The search by a rate of the standard's table and a row of the tail table.
fn search_by(k: usize, r: usize, flips: &[u8], values: &[u8], found: &mut [u8]) -> u16
    requires { Lends k r flips.now found.old × Below 2 flips.now }
{
    let table = standard_table();
    let p = pattern(&table, k);
    search_with(p, tail_pattern(r), flips, values, found)
}

// Draws the bits that are added, and then the values; what the search finds goes into the digest.
fn search_drawn(
    k: usize,
    r: usize,
    at: Place,
    flips: &mut [u8],
    values: &mut [u8],
    found: &mut [u8],
) -> Place
    requires { Lends k r flips.old found.old }
{
    let bits = 8 * flips.len();
    let x = draws::block(at.x, bits, flips);
    reduce(flips, 2);
    let y = draws::block(x, 448, values);
    reduce(values, 3);
    let count = search_by(k, r, flips, values, found);
    let digest = digests::taken(of_bits(at.digest, found), count as u64);
    Place { x: y, digest }
}

// One list of values for n bits at rate k with row r of the tail table.
fn search_once(k: usize, r: usize, n: usize, at: Place) -> Place
    requires { (k < 13) × (r < 12) × (n ≤ 8) }
{
    let mut flips = [0u8; 8];
    let mut values = [0u8; 56];
    let mut found = [0u8; 8];
    search_drawn(k, r, at, &mut flips[0..n], &mut values, &mut found[0..n])
}

// A line: rate, length, and the digest over three lists for each row of the tail table.
fn line(k: usize, n: usize)
    requires { (k < 13) × (n ≤ 8) }
{
    let mut at = Place {
        x: (1 + 9 * k + n) as u64,
        digest: 0,
    };
    for r in 0..12 {
        for _ in 0..3 {
            at = search_once(k, r, n, at);
        }
    }
    let digest = at.digest;
    print(format_args!("{k} {n} {digest}\n"));
}

fn main() {
    for k in 0..13 {
        for n in 0..9 {
            line(k, n);
        }
    }
}
