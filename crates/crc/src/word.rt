// The CRC word of 64 bits. 001 annex D.
ghost use Rattle.std.specs.Prelude.{◌≡◌, ◌<◌};
ghost use Rattle.block.specs.Packing.{digits};
ghost use Rattle.crc.specs.Bits.{bits_of};
ghost use Rattle.crc.specs.Crc.{g8, shifted, crc_bits};

// The coefficients of G8 below x^8.
const G8: u8 = 0b0001_1101;

// One shift of the register with the next data bit.
fn shift(register: u8, bit: u8) -> u8
    requires { bit < 2 }
    ensures { bits_of 8 result ≡ shifted g8 (bits_of 8 register) bit }
{
    (register % 128 * 2) ^ (G8 * ((register / 128 + bit) % 2))
}

// The CRC word of a word's bits, highest first: the register starts as ones and is inverted.
pub fn crc(word: u64) -> u8
    ensures { result ≡ digits (crc_bits (bits_of 64 word)) 0 8 }
{
    let mut register: u8 = 255;
    for n in (0u32..64).rev() {
        register = shift(register, ((word >> n) % 2) as u8);
    }
    register ^ 255
}
