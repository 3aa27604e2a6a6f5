// A block of each kind: drawn, coded, read back, and the digest of its cells.
ghost use Rattle.std.specs.Prelude.{◌≡◌, true};
ghost use Rattle.settings.specs.Accepted.{Accepted};
ghost use Rattle.block.specs.Fits.{BlockFits};
ghost use Rattle.channels.specs.Scheme.{standard_scheme};
ghost use Rattle.vectors.specs.Digest.{cells_taken};
ghost use Rattle.check_blocks.specs.Kinds.{block_of, drawn_from, drawn_of};
ghost use Rattle.check_blocks.specs.Buffers.{LentBoth, Largest};

use block::Block;
use block::buffers::{byte_buffer, coordinate_buffer};
use blockcoder::code::code_block;
use blockreader::several::read_several;
use channels::blocks::{fac_block, msc_block, sdc_block};
use channels::tables::standard_scheme;
use multilevel::places::bit_count;
use settings::{Settings, refusals};
use vectors::{digests, draws};

// The kinds of blocks.
#[derive(Clone, Copy, Debug, PartialEq, Eq)]
pub enum Kind {
    Fac,
    Sdc,
    Frame,
}

// The state of the draws after a block, and the digest of its cells.
#[derive(Clone, Copy)]
pub struct Drawn {
    pub x: u64,
    pub digest: u64,
}

// The block of a kind, with the standard's table.
// Stays: `sdc_block` and `msc_block` ask for accepted settings; `block` alone calls this, behind its test, and would make a type for one call.
#[tactic(auto, unfolding(crate::specs::Kinds::block_of))]
fn block_of(kind: Kind, s: Settings) -> Block
    requires { Accepted s }
    ensures { result ≡ block_of kind (standard_scheme s) }
{
    let scheme = standard_scheme(s);
    // Stays: the definition `block_of` goes by the kind as well; a function in its place would be an argument of each contract.
    match kind {
        Kind::Fac => fac_block(scheme),
        Kind::Sdc => sdc_block(scheme),
        Kind::Frame => msc_block(scheme),
    }
}

// The digest of the cells, or 0 where the block did not come back.
fn digest_of(bytes: &[u8], cells: &[i16], given: bool, back: &[u8]) -> u64
    ensures { given ≡ true → bytes.now ≡ back.now → result ≡ cells_taken 0 cells.now }
{
    if !given || bytes != back {
        return 0;
    }
    digests::of_cells(0, cells)
}

// A block in buffers of its lengths. It is proved to come back, so that the digest is that of its cells.
fn block_in(
    k: Block,
    x: u64,
    bits: usize,
    bytes: &mut [u8],
    back: &mut [u8],
    cells: &mut [i16],
) -> Drawn
    requires { LentBoth k bits bytes.old back.old cells.old }
    ensures { result ≡ drawn_from k x }
{
    let x = draws::block(x, bits, bytes);
    code_block(k, bytes, cells);
    let given = read_several(k, 1, cells, back);
    let digest = digest_of(bytes, cells, given[0], back);
    Drawn { x, digest }
}

// A block in buffers for the largest.
// Stays: `code_block` and `read_several` ask for a block that fits; `block` alone calls this, knows it of every kind, and would make a type there
// for one call.
fn block_with(k: Block, x: u64, bytes: &mut [u8], back: &mut [u8], cells: &mut [i16]) -> Drawn
    requires { BlockFits k × Largest bytes.old back.old cells.old }
    ensures { result ≡ drawn_from k x }
{
    let bits = bit_count(k);
    let n = bits.div_ceil(8);
    let m = 2 * k.cells;
    block_in(
        k,
        x,
        bits,
        &mut bytes[0..n],
        &mut back[0..n],
        &mut cells[0..m],
    )
}

// A block of some settings; nothing is drawn for settings that are refused.
#[tactic(auto, using(refusal::proofs::Positive::number_positive), unfolding(crate::specs::Kinds::drawn_of))]
pub fn block(kind: Kind, s: Settings, x: u64) -> Drawn
    ensures { result ≡ drawn_of kind s x }
{
    match refusals::check(s) {
        Err(_) => Drawn { x, digest: 0 },
        Ok(()) => {
            let mut bytes = byte_buffer();
            let mut back = byte_buffer();
            let mut cells = coordinate_buffer();
            block_with(block_of(kind, s), x, &mut bytes, &mut back, &mut cells)
        }
    }
}
