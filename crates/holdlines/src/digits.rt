// Hexadecimal digits. 02, S-7.
ghost use Rattle.std.specs.Prelude.{◌≡◌, ◌<◌};
ghost use Rattle.holdlines.specs.Hexadecimal.{digit};
ghost use Rattle.holdlines.specs.Clauses.{digit_or, found};

// A digit of 0 to 15.
// Stays: a number below 16 is half a byte, position or count here, and Rust has no type for it; one of ours would be built at each of these places, and
// taken apart here and in `wide_digit`. `line::write::glyph` promises another definition, that of the line of lengths.
pub fn digit(n: u8) -> u8
    requires { n < 16 }
    ensures { result ≡ digit n }
{
    if n < 10 {
        return b'0' + n;
    }
    b'A' + (n - 10)
}

// What a byte stands for as a digit: None where it is no digit.
#[tactic(auto, unfolding(crate::specs::Clauses::digit_or, crate::specs::Clauses::found, crate::specs::Hexadecimal::is_digit, crate::specs::Hexadecimal::digit_value))]
pub fn digit_value(b: u8) -> Option<u8>
    ensures { result ≡ found (digit_or b) }
{
    match b {
        b'0'..=b'9' => Some(b - b'0'),
        b'A'..=b'F' => Some(b - b'A' + 10),
        _ => None,
    }
}
