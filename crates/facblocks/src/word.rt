// The 64 bits of a block's parameters as one number, its highest bit first.
ghost use Rattle.std.specs.Prelude.{◌≡◌, true};
ghost use Rattle.block.specs.Packing.{unpacked, packed};
ghost use Rattle.crc.specs.Bits.{bits_of, laid, fit, numbers_in};
ghost use Rattle.facblocks.specs.Fields.{widths};
ghost use Rattle.facblocks.specs.Block.{with_crc};

use crc::word::crc;

// The bytes of a block: eight of parameters, and the CRC word.
pub const BLOCK_BYTES: usize = 9;

const PARAMETERS: usize = 16;

// How many values each parameter of a block has, the reserved ones included: 2 to the power of its bits.
const VALUES: [u64; PARAMETERS] = [2, 4, 16, 2, 4, 2, 16, 8, 4, 16777216, 4, 2, 16, 2, 32, 128];

// Whether no parameter has more bits than its field.
pub fn fit(parameters: [u32; PARAMETERS]) -> bool
    ensures { result ≡ fit widths parameters }
{
    for k in 0..PARAMETERS {
        if VALUES[k] <= parameters[k] as u64 {
            return false;
        }
    }
    true
}

// Parameters that fit to a word.
pub fn join(parameters: [u32; PARAMETERS]) -> u64
    requires { fit widths parameters ≡ true }
    ensures { bits_of 64 result ≡ laid widths parameters }
{
    let mut word: u64 = 0;
    for k in 0..PARAMETERS {
        word = word * VALUES[k] + parameters[k] as u64;
    }
    word
}

// A word's parameters, from the last to the first.
pub fn split(word: u64) -> [u32; PARAMETERS]
    ensures { result ≡ numbers_in widths (bits_of 64 word) }
{
    let mut parameters = [0u32; PARAMETERS];
    let mut left = word;
    for k in (0..PARAMETERS).rev() {
        parameters[k] = (left % VALUES[k]) as u32;
        left /= VALUES[k];
    }
    parameters
}

// The word of a block.
pub fn word_of(block: &[u8; BLOCK_BYTES]) -> u64
    ensures { bits_of 64 result ≡ unpacked 64 block.now }
{
    let [a, b, c, d, e, f, g, h, _] = *block;
    u64::from_be_bytes([a, b, c, d, e, f, g, h])
}

// A word's bits and their CRC word, packed.
pub fn block_from(word: u64) -> [u8; BLOCK_BYTES]
    ensures { result ≡ packed (with_crc (bits_of 64 word)) }
{
    let [a, b, c, d, e, f, g, h] = word.to_be_bytes();
    [a, b, c, d, e, f, g, h, crc(word)]
}
