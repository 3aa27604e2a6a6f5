// The one test of points: FAC and SDC cells, sent rows (refusal 13) and memory (refusal 12). 01 "Operations".
ghost use Rattle.std.specs.Prelude.{◌≡◌, ◌+◌, ◌*◌, ◌%◌, ◌<◌, length, pos, ◌-ℤ◌};
ghost use Rattle.cellbytes.specs.CellBytes.{numbers};
ghost use Rattle.pointtests.specs.PointTests.{points_pass, all_cells};
ghost use Rattle.pointtests.specs.Clauses.{by_mask, Masks, Finds, half_passes, byte_passes, Reaches};

use crate::PointTest;
use block::Constellation;

// The largest coordinate of a constellation.
// Stays: `measured` and `decision` have other values by constellation; a match for each shows the values.
fn largest(c: Constellation) -> u8
    ensures reaches { Reaches c result }
    ensures masks { Masks c (pos 0 -ℤ pos result) }
{
    match c {
        Constellation::Qam4 => 1,
        Constellation::Qam16 => 3,
        Constellation::Sm64 | Constellation::HmSym | Constellation::HmMix => 7,
    }
}

// The mask by which the coordinates of a constellation are told: in its places they have 1, or all that is there.
fn mask_of(c: Constellation) -> i16
    ensures { Masks c result }
{
    -i16::from(largest(c))
}

// A number is one of the coordinates. By its binary digits and without a table, so that a processor tests eight at once.
fn is_coordinate(mask: i16, v: i16) -> bool
    ensures { result ≡ by_mask mask v }
{
    (v & mask == 1) | (v & mask == mask)
}

// Cell i is a point, or (0, 0) where such cells pass.
fn cell_passes(mask: i16, blank: bool, cells: &[i16], i: usize) -> bool
    requires { 2 * i + 1 < length cells.now }
    ensures { Finds mask blank cells.now i result }
{
    let re = cells[2 * i];
    let im = cells[2 * i + 1];
    (blank & ((re == 0) & (im == 0))) | (is_coordinate(mask, re) & is_coordinate(mask, im))
}

// One more, 0 after the last: the delay of the next cell, the slot of the next frame.
// Stays: `component::code::following` counts columns likewise, but promises the choice by which `Codeword.encode` is defined. One function for both would
// promise one form, and each caller of the other would need a law from the one to the other.
pub fn next_modulo(depth: usize, delay: usize) -> usize
    requires { delay < depth }
    ensures { result ≡ (delay + 1) % depth }
{
    if delay + 1 == depth {
        return 0;
    }
    delay + 1
}

// Every cell passes, and none is ignored. All are looked at, whatever came before.
pub fn all_pass(c: Constellation, blank: bool, cells: &[i16]) -> bool
    ensures { result ≡ points_pass (all_cells c blank) cells.now }
{
    let mask = mask_of(c);
    let mut passed = true;
    for i in 0..cells.len() / 2 {
        passed = passed & cell_passes(mask, blank, cells, i);
    }
    passed
}

// The same where some may be ignored, whose delays are counted along.
// Stays: with `0 < depth` as an invariant a caller could no longer make a PointTest of depth 0, and docs/DECISIONS.md names `points_pass`.
fn some_pass(test: PointTest, cells: &[i16]) -> bool
    requires { 0 < test.depth }
    ensures { result ≡ points_pass test cells.now }
{
    let mask = mask_of(test.constellation);
    let mut passed = true;
    let mut delay = 0;
    for i in 0..cells.len() / 2 {
        passed = passed & ((test.count < delay) | cell_passes(mask, test.blank, cells, i));
        delay = next_modulo(test.depth, delay);
    }
    passed
}

// Every cell passes: without delays where the count has reached them all, since they stop a processor from testing several at once.
// Stays: with `0 < depth` as an invariant a caller could no longer make a PointTest of depth 0, and docs/DECISIONS.md names `points_pass`.
pub fn points_pass(test: PointTest, cells: &[i16]) -> bool
    requires { 0 < test.depth }
    ensures { result ≡ points_pass test cells.now }
{
    if test.depth - 1 <= test.count {
        return all_pass(test.constellation, test.blank, cells);
    }
    some_pass(test, cells)
}

// Four bits are a coordinate: with the largest one added they are even and at most twice that.
// Stays: a half of a byte is made by `byte_passes` alone, which calls this twice; a type for it would be built there and taken apart here, in a loop that a
// processor runs for sixteen bytes at once.
fn half_passes(top: u8, n: u8) -> bool
    requires { (top < 8) × (n < 16) }
    ensures { result ≡ half_passes top n }
{
    (n + top) & (15 - 2 * top) == 0
}

// A cell's byte passes. By arithmetic and without a table, so that a processor tests sixteen at once.
fn byte_passes(top: u8, blank: bool, b: u8) -> bool
    requires { top < 8 }
    ensures { result ≡ byte_passes top blank b }
{
    (blank & (b == 0)) | (half_passes(top, b / 16) & half_passes(top, b % 16))
}

// Every cell of a memory passes, whatever came before.
pub fn bytes_pass(c: Constellation, blank: bool, cells: &[u8]) -> bool
    ensures { result ≡ points_pass (all_cells c blank) (numbers cells.now) }
{
    let top = largest(c);
    let mut passed = true;
    for cell in cells {
        passed = passed & byte_passes(top, blank, *cell);
    }
    passed
}
