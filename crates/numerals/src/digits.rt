// Bytes as hexadecimal digits, 0 to 9 and A to F, and back.
ghost use Rattle.std.specs.Prelude.{◌≡◌, true, ◌+◌, ◌*◌, ◌≤◌, ◌++◌, length};
ghost use Rattle.numerals.specs.Digits.{hex_digits, are_hex, bytes_in};

use line::read::{are_digits, byte_at};
use line::write::glyph;
use words::text::Text;

// The digits of bytes, behind a text: of each byte the high one first.
pub fn put_hex(text: &mut Text, bytes: &[u8])
    requires { length text.old + 2 * length bytes.now ≤ 1024 }
    ensures put { text.new ≡ text.old ++ hex_digits bytes.now }
    ensures room { length text.new ≡ length text.old + 2 * length bytes.now }
{
    for byte in bytes {
        text.put(&[glyph(*byte / 16), glyph(*byte % 16)]);
    }
}

// Whether a line is the digits of so many bytes.
#[tactic(auto, unfolding(crate::specs::Digits::are_hex))]
pub fn are_hex(line: &[u8], count: usize) -> bool
    requires { count ≤ 100 }
    ensures { result ≡ are_hex count line.now }
{
    line.len() == 2 * count && are_digits(line, line.len())
}

// The bytes of their digits.
pub fn read_hex<const N: usize>(line: &[u8]) -> [u8; N]
    requires { are_hex N line.now ≡ true }
    ensures { result ≡ bytes_in N line.now }
{
    let mut bytes = [0; N];
    for (k, byte) in bytes.iter_mut().enumerate() {
        *byte = byte_at(line, k);
    }
    bytes
}
