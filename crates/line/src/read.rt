// Reading a line of settings.
ghost use Rattle.std.specs.Prelude.{◌≡◌, ◌≤◌, true, length};
ghost use Rattle.line.specs.Read.{digit_of, digits, is_line, byte_at, settings_in, parse_of};
ghost use Rattle.line.specs.Clauses.{HexByte, found};

use settingbytes::bytes::settings_of;
use settings::Settings;

// The value of a hexadecimal digit, or none for any other byte.
// Stays: `holdlines` `digit_value` has the same of a hold file's digits. Each goes by the definition of its own paper, and neither crate is built on the other:
// one function for both would be a crate more under them, and each would prove that its own definition is that crate's.
#[tactic(auto, unfolding(crate::specs::Read::digit_of, crate::specs::Clauses::found))]
fn digit(byte: u8) -> Option<u8>
    ensures { result ≡ found (digit_of byte) }
{
    match byte {
        b'0'..=b'9' => Some(byte - 48),
        b'A'..=b'F' => Some(byte - 55),
        _ => None,
    }
}

// Whether the first n bytes are digits.
pub fn are_digits(bytes: &[u8], n: usize) -> bool
    requires { n ≤ length bytes.now }
    ensures { result ≡ digits bytes.now 0 n }
{
    for i in 0..n {
        if digit(bytes[i]).is_none() {
            return false;
        }
    }
    true
}

// Whether the bytes begin with twenty digits and a line feed.
#[tactic(auto, unfolding(crate::specs::Read::is_line))]
fn is_line(bytes: &[u8]) -> bool
    ensures { result ≡ is_line bytes.now }
{
    20 < bytes.len() && bytes[20] == b'\n' && are_digits(bytes, 20)
}

// The kth byte that two digits each stand for.
#[tactic(auto, unfolding(crate::specs::Read::byte_at))]
pub fn byte_at(bytes: &[u8], k: usize) -> u8
    requires { HexByte bytes.now k }
    ensures { result ≡ byte_at bytes.now k }
{
    let high = digit(bytes[2 * k]).unwrap_or(0);
    let low = digit(bytes[2 * k + 1]).unwrap_or(0);
    16 * high + low
}

fn settings_in(bytes: &[u8]) -> Settings
    requires { is_line bytes.now ≡ true }
    ensures { result ≡ settings_in bytes.now }
{
    let high = byte_at(bytes, 6);
    let low = byte_at(bytes, 7);
    settings_of(&[
        byte_at(bytes, 0),
        byte_at(bytes, 1),
        byte_at(bytes, 2),
        byte_at(bytes, 3),
        byte_at(bytes, 4),
        byte_at(bytes, 5),
        high,
        low,
        byte_at(bytes, 8),
        byte_at(bytes, 9),
    ])
}

// The settings of a line, or none for anything but twenty digits and a line end.
#[tactic(auto, unfolding(crate::specs::Read::parse_of))]
pub fn parse(bytes: &[u8]) -> Option<Settings>
    ensures { result ≡ parse_of bytes.now }
{
    if !is_line(bytes) {
        return None;
    }
    Some(settings_in(bytes))
}
