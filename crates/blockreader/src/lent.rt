// A block read back in its working buffers: the candidate, packed, coded again and compared with the cells. 01 "Operations".
ghost use Rattle.std.specs.Prelude.{◌*◌, ◌≡◌, length};
ghost use Rattle.blockreader.specs.Clauses.{LentRead};
ghost use Rattle.block.specs.Fits.{BlockLent};

use blockcoder::code::code_lent;
use blockcoder::work::Work;
use candidate::kept::keep_same;
use candidate::read::read_packed;

// Whether bits give the cells; these packed, or zeros.
pub fn read_lent<const BITS: usize, const NUMBERS: usize>(
    work: &mut Work<BITS, NUMBERS>,
    cells: &[i16],
    again: &mut [i16],
    bytes: &mut [u8],
) -> bool
    requires { BlockLent work.old.order.block bytes.old cells.now × (length again.old ≡ 2 * work.old.order.block.cells) }
    ensures lent_read { LentRead work.old.order.block cells.now bytes.old result bytes.new }
    ensures same_block { work.new.order.block ≡ work.old.order.block }
{
    let order = work.order;
    read_packed(
        order,
        cells,
        &mut work.bits,
        &mut work.labels,
        &mut work.coded,
        bytes,
    );
    code_lent(
        order,
        bytes,
        &mut work.bits,
        &mut work.labels,
        &mut work.coded,
        again,
    );
    keep_same(again, cells, bytes)
}
