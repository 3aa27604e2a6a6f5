// What is kept of received cells, and what is told of blocks. 02, S-13.
ghost use Rattle.std.specs.Prelude.{◌≡◌, cond, map, pos, length};
ghost use Rattle.keptcells.specs.ReadOn.{kept_cells, lost_mark};
ghost use Rattle.keptcells.specs.Clauses.{CellsKept};

use channels::Scheme;
use channels::blocks::msc_constellation;
use pointtests::tests::all_pass;

// A cell that is no point is kept as (0, 0).
const EMPTY: i16 = 0;

// A number of a point as it is, of any other cell that of an empty one.
fn kept_number(point: bool, v: i16) -> i16
    ensures { result ≡ cond point v (pos 0) }
{
    if point {
        return v;
    }
    EMPTY
}

// Received MSC cells as they are kept.
pub fn keep_cells(s: Scheme, cells: &[i16], out: &mut [i16])
    requires { CellsKept s cells.now out.old }
    ensures { out.new ≡ kept_cells s cells.now }
{
    let constellation = msc_constellation(s.settings.msc);
    let n = cells.len() / 2;
    for i in 0..n {
        let point = all_pass(constellation, false, &cells[2 * i..2 * i + 2]);
        out[2 * i] = kept_number(point, cells[2 * i]);
        out[2 * i + 1] = kept_number(point, cells[2 * i + 1]);
    }
}

// 1 for a lost block, else 0.
#[tactic(auto, unfolding(crate::specs::ReadOn::lost_mark))]
fn lost_mark(given: bool) -> u8
    ensures { result ≡ lost_mark given }
{
    u8::from(!given)
}

// The marks of all blocks.
pub fn mark_lost(given: [bool; 7], lost: &mut [u8])
    requires { length lost.old ≡ 7 }
    ensures { lost.new ≡ map lost_mark given }
{
    for i in 0..7 {
        lost[i] = lost_mark(given[i]);
    }
}
