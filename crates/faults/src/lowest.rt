// Refusals 13 and 14: the lowest block at fault. 01 "Operations".
// Stays, in this module: buffers stand one by one, since a clause would name one in a struct `cells.now.fac.now` and not `fac.now`.
ghost use Rattle.std.specs.Prelude.{◌≡◌, ◌*◌, ◌≤◌, ◌<◌, length, take};
ghost use Rattle.lists.specs.Lists.{table};
ghost use Rattle.settings.specs.Sizes.{depth};
ghost use Rattle.lists.specs.Same.{same_numbers};
ghost use Rattle.superframe.specs.Memory.{slot_size};
ghost use Rattle.superframe.specs.Call.{part};
ghost use Rattle.cellmemory.specs.Clauses.{filler_numbers};
ghost use Rattle.superframe.specs.Read.{row_points, count_at};
ghost use Rattle.faults.specs.Clauses.{fault_of, point_test, CellsLent};

use block::Constellation;
use cellmemory::fillers::write_fillers;
use cellmemory::rows::{count_after, slot_size};
use channels::Scheme;
use channels::blocks::{msc_constellation, sdc_constellation};
use lists::numbers::same;
use partlengths::tables::FAC_NUMBERS;
use pointtests::PointTest;
use pointtests::tests::{all_pass, points_pass};
use settings::answers;

// The fillers are what they must be.
fn fillers_right(cells: &[i16]) -> bool
    requires { length cells.now ≤ 4 }
    ensures { result ≡ same_numbers cells.now (take (length cells.now) filler_numbers) }
{
    let n = cells.len();
    let mut fillers = [0i16; 4];
    write_fillers(&mut fillers[0..n]);
    same(cells, &fillers[0..n])
}

// Every cell of row i that is not ignored is a point.
fn row_test(s: Scheme, count: usize, msc: &[i16], i: usize) -> bool
    requires { (i < 3) × (count < depth s.settings) × (s.settings.msc < 4) × (3 * slot_size s.settings ≤ length msc.now) }
    ensures { result ≡ row_points s (count_at s.settings count i) (part (slot_size s.settings) msc.now i) }
{
    let n = slot_size(s.settings);
    let depth = answers::depth(s.settings);
    let test = PointTest {
        constellation: msc_constellation(s.settings.msc),
        depth,
        count: count_after(depth, count, i),
        blank: false,
    };
    points_pass(test, &msc[n * i..n * i + n])
}

// 13: the lowest block whose test fails: 0 to 2 FAC, 3 SDC, 4 to 6 the sent rows, 7 the fillers.
pub fn point_fault(s: Scheme, count: usize, fac: &[i16], sdc: &[i16], msc: &[i16]) -> Option<u8>
    requires { CellsLent s count fac.now sdc.now msc.now }
    ensures { result ≡ fault_of (table (point_test s count fac.now sdc.now msc.now) 0 8) }
{
    let qam4 = Constellation::Qam4;
    for i in 0..3 {
        let at = FAC_NUMBERS * i as usize;
        if !all_pass(qam4, false, &fac[at..at + FAC_NUMBERS]) {
            return Some(i);
        }
    }
    if !all_pass(sdc_constellation(s.settings.sdc), false, sdc) {
        return Some(3);
    }
    for row in 0..3 {
        if !row_test(s, count, msc, row as usize) {
            return Some(4 + row);
        }
    }
    if !fillers_right(&msc[3 * slot_size(s.settings)..]) {
        return Some(7);
    }
    None
}

// 14: the lowest block that no bits give.
pub fn lost_fault(given: [bool; 7]) -> Option<u8>
    ensures { result ≡ fault_of given }
{
    for i in 0..7 {
        if !given[i as usize] {
            return Some(i);
        }
    }
    None
}
