// The tests of points by a constellation's number, for a caller outside that has it as a byte: a number from 5 on is taken for 4-QAM's.
// Nothing here calls them. The constellation of a test that is handed in counts for nothing beside the number.
ghost use Rattle.std.specs.Prelude.{◌≡◌, ◌<◌};
ghost use Rattle.block.specs.Mapping.{numbered};
ghost use Rattle.cellbytes.specs.CellBytes.{numbers};
ghost use Rattle.pointtests.specs.PointTests.{points_pass, all_cells, of_number};

use crate::{PointTest, tests};
use block::Constellation;

// Every cell passes, and none is ignored.
pub fn all_pass(c: u8, blank: bool, cells: &[i16]) -> bool
    ensures { result ≡ points_pass (all_cells (numbered c) blank) cells.now }
{
    tests::all_pass(Constellation::numbered(c), blank, cells)
}

// Every cell passes by a test, of which the constellation is the number's: some may be ignored.
// Stays: with `0 < depth` as an invariant a caller could no longer make a PointTest of depth 0, and docs/DECISIONS.md names `points_pass`.
pub fn points_pass(c: u8, test: PointTest, cells: &[i16]) -> bool
    requires { 0 < test.depth }
    ensures { result ≡ points_pass (of_number c test) cells.now }
{
    let constellation = Constellation::numbered(c);
    tests::points_pass(
        PointTest {
            constellation,
            ..test
        },
        cells,
    )
}

// Every cell of a memory passes.
pub fn bytes_pass(c: u8, blank: bool, cells: &[u8]) -> bool
    ensures { result ≡ points_pass (all_cells (numbered c) blank) (numbers cells.now) }
{
    tests::bytes_pass(Constellation::numbered(c), blank, cells)
}
