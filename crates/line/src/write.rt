// Writing the line that answers a line of settings. The text is written from the start of a buffer, and its length given back.
// Stays: docs/PROMISES.md names `print`, `bad_line` and `answer` with their buffer and promises every byte of it; `words` `Text` stands above this crate.
ghost use Rattle.std.specs.Prelude.{◌≡◌, ◌<◌, ◌++◌, length, Ok};
ghost use Rattle.settings.specs.Lengths.{lengths_yield};
ghost use Rattle.std.proofs.lemmas.List.Edits.{sets};
ghost use Rattle.line.specs.Written.{glyph, group, groups, decimal, line_end, written, bad_line, answer_of};

use crate::read;
use refusal::Refusal;
use settings::Lengths;

// The byte of a hexadecimal digit.
// Stays: callers halve a byte, and that a half is below 16 the check finds; with a type for it each would write `glyph(Half::new(high / 16))`.
#[tactic(auto, unfolding(crate::specs::Written::glyph))]
pub fn glyph(n: u8) -> u8
    requires { n < 16 }
    ensures { result ≡ glyph n }
{
    if n < 10 { 48 + n } else { 55 + n }
}

// Four hexadecimal digits.
fn group(n: u16) -> [u8; 4]
    ensures { result ≡ group n }
{
    let [high, low] = n.to_be_bytes();
    [
        glyph(high / 16),
        glyph(high % 16),
        glyph(low / 16),
        glyph(low % 16),
    ]
}

// A number in decimal and a line feed.
pub(crate) fn put_decimal(n: u8, out: &mut [u8; 32]) -> usize
    ensures out_after { out.new ≡ sets out.old 0 (decimal n ++ line_end) }
    ensures value { result ≡ length (decimal n ++ line_end) }
{
    let mut digits = [0; 20];
    let count = io::decimal(n as u64, &mut digits);
    out[..count].copy_from_slice(&digits[..count]);
    out[count] = b'\n';
    count + 1
}

// Five groups of four digits, and a line feed.
fn put_groups(l: Lengths, out: &mut [u8; 32]) -> usize
    ensures out_after { out.new ≡ sets out.old 0 (groups (lengths_yield (Ok l))) }
    ensures value { result ≡ length (groups (lengths_yield (Ok l))) }
{
    out[..4].copy_from_slice(&group(l.n1));
    out[4] = b' ';
    out[5..9].copy_from_slice(&group(l.n2));
    out[9] = b' ';
    out[10..14].copy_from_slice(&group(l.l1));
    out[14] = b' ';
    out[15..19].copy_from_slice(&group(l.l2));
    out[19] = b' ';
    out[20..24].copy_from_slice(&group(l.vspp));
    out[24] = b'\n';
    25
}

// The lengths, or for a refusal its number in decimal.
pub fn print(lengths: Result<Lengths, Refusal>, out: &mut [u8; 32]) -> usize
    ensures out_after { out.new ≡ sets out.old 0 (written (lengths_yield lengths)) }
    ensures value { result ≡ length (written (lengths_yield lengths)) }
{
    match lengths {
        Ok(l) => put_groups(l, out),
        Err(refusal) => put_decimal(refusal.number(), out),
    }
}

// `bad line`
#[tactic(auto, unfolding(crate::specs::Written::bad_line))]
pub fn bad_line(out: &mut [u8; 32]) -> usize
    ensures out_after { out.new ≡ sets out.old 0 bad_line }
    ensures value { result ≡ length bad_line }
{
    out[..9].copy_from_slice(b"bad line\n");
    9
}

// The answer to a line of settings.
#[tactic(auto, unfolding(crate::specs::Written::answer_of, crate::specs::Written::answer_to))]
pub fn answer(bytes: &[u8], out: &mut [u8; 32]) -> usize
    ensures out_after { out.new ≡ sets out.old 0 (answer_of bytes.now) }
    ensures value { result ≡ length (answer_of bytes.now) }
{
    match read::parse(bytes) {
        Some(s) => print(settings::answers::lengths(s), out),
        None => bad_line(out),
    }
}
