// A block from its fields, and what a block holds.
ghost use Rattle.std.specs.Prelude.{◌≡◌, true};
ghost use Rattle.facblocks.specs.Fields.{within};
ghost use Rattle.facblocks.specs.Block.{block_of, fields_in, crc_right};

use crate::Fields;
use crate::layout::{fields_among, parameters};
use crate::word::{BLOCK_BYTES, block_from, fit, join, split, word_of};
use crc::word::crc;

// Whether no field is too large for its bits.
pub fn within(f: Fields) -> bool
    ensures { result ≡ within f }
{
    fit(parameters(f))
}

// The block of fields that are within their bits.
pub fn block_of(f: Fields) -> [u8; BLOCK_BYTES]
    requires { within f ≡ true }
    ensures { result ≡ block_of f }
{
    block_from(join(parameters(f)))
}

// The fields of a block.
pub fn fields_in(block: &[u8; BLOCK_BYTES]) -> Fields
    ensures { result ≡ fields_in block.now }
{
    fields_among(split(word_of(block)))
}

// Whether a block carries the CRC word of its parameters.
pub fn crc_right(block: &[u8; BLOCK_BYTES]) -> bool
    ensures { result ≡ crc_right block.now }
{
    block[8] == crc(word_of(block))
}
