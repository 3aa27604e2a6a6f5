// Lines of digits to bytes of cells. 02, S-7.
// Stays, in this module: buffers stand one by one; with a struct of `&mut` a clause must also say that each reference is still the same one.
ghost use Rattle.std.specs.Prelude.{◌≡◌, ◌+◌, ◌*◌, ◌≤◌, ◌<◌, length, get_or, ltb, is_ok, IfErr};
ghost use Rattle.refusal.specs.Numbers.{number};
ghost use Rattle.settings.specs.Accepted.{Accepted};
ghost use Rattle.settings.specs.Lengths.{n_mux};
ghost use Rattle.settings.specs.Sizes.{depth};
ghost use Rattle.holdlines.specs.Clauses.{digit_or, found};
ghost use Rattle.holdlines.specs.Files.{number_digits};
ghost use Rattle.holdreading.specs.Clauses.{wide_digits, wide_at, bits_at, LineLent, LineTaken, LinesLent, LinesTaken, heading_test, FileTaken};

use channels::blocks::msc_constellation;
use holdlines::Form;
use holdlines::digits::digit_value;
use holdlines::lengths::{LINE_FEED, file_bytes, line_bytes};
use partlengths::tables;
use pointtests::tests::bytes_pass;
use refusal::Refusal;
use settings::{Settings, answers};

// The four bits of a 16-bit number by what its digits stand for: all above the lowest are those of its sign.
#[tactic(auto, unfolding(crate::specs::Clauses::wide_bits, crate::specs::Clauses::wide_digits, holdlines::specs::Clauses::found))]
fn wide_bits(digits: [u8; 4]) -> Option<u8>
    requires { get_or digits 3 0 < 16 }
    ensures { result ≡ found (wide_digits digits) }
{
    let [a, b, c, d] = digits;
    let sign = if d < 8 { 0 } else { 15 };
    if a == sign && b == sign && c == sign {
        return Some(d);
    }
    None
}

// Those of the four digits from a place on.
// Stays: a place and not a part of the line, as the definitions `wide_at` and `bits_at` have it, which speak of number k of a whole line in both forms.
fn wide_at(line: &[u8], at: usize) -> Option<u8>
    requires { at + 4 ≤ length line.now }
    ensures { result ≡ found (wide_at line.now at) }
{
    let a = digit_value(line[at])?;
    let b = digit_value(line[at + 1])?;
    let c = digit_value(line[at + 2])?;
    let d = digit_value(line[at + 3])?;
    wide_bits([a, b, c, d])
}

// The four bits of number k of a line.
fn number_bits(form: Form, line: &[u8], k: usize) -> Option<u8>
    requires { k * number_digits form + number_digits form ≤ length line.now }
    ensures { result ≡ found (bits_at form line.now k) }
{
    // Stays: the form comes from the command line, or with the name of a C call, as a value, and its digits are read here.
    match form {
        Form::Old => wide_at(line, 4 * k),
        Form::New => digit_value(line[k]),
    }
}

// The cells of a line into a slot of memory, if it is right. Refusal 18.
fn take_line(form: Form, line: &[u8], slot: &mut [u8]) -> Result<(), Refusal>
    requires { LineLent form line.now slot.old }
    ensures taken { LineTaken form line.now slot.old (is_ok result) slot.new }
    ensures refused { IfErr result (λ e. number e ≡ 18) }
{
    for i in 0..slot.len() {
        let re = number_bits(form, line, 2 * i).ok_or(Refusal::HoldFile)?;
        let im = number_bits(form, line, 2 * i + 1).ok_or(Refusal::HoldFile)?;
        slot[i] = 16 * re + im;
    }
    if line[line.len() - 1] != LINE_FEED {
        return Err(Refusal::HoldFile);
    }
    Ok(())
}

// The cells of every line after the heading into memory, if all are right. Refusal 18.
pub fn take_lines(
    form: Form,
    n: usize,
    file: &[u8],
    memory: &mut [u8],
    lines: usize,
) -> Result<(), Refusal>
    requires { LinesLent form n lines file.now memory.old }
    ensures taken { LinesTaken form n lines file.now (is_ok result) memory.new }
    ensures refused { IfErr result (λ e. number e ≡ 18) }
{
    let long = line_bytes(form, n);
    for k in 0..lines {
        let at = 3 + k * long;
        let from = k * n;
        take_line(form, &file[at..at + long], &mut memory[from..from + n])?;
    }
    Ok(())
}

// A digit below the depth.
#[tactic(auto, unfolding(holdlines::specs::Clauses::found))]
fn digit_below(b: u8, depth: usize) -> bool
    requires { depth ≤ 16 }
    ensures { result ≡ ltb (digit_or b) depth }
{
    digit_value(b).is_some_and(|digit| usize::from(digit) < depth)
}

// The heading: two digits below the depth, and a line feed.
#[tactic(auto, unfolding(crate::specs::Clauses::heading_test))]
fn heading_right(file: &[u8], depth: usize) -> bool
    requires { (3 ≤ length file.now) × (depth ≤ 16) }
    ensures { result ≡ heading_test depth file.now }
{
    digit_below(file[0], depth) && digit_below(file[1], depth) && file[2] == LINE_FEED
}

// The cells of a file into memory, if it is valid. Refusal 18.
// Stays: docs/PROMISES.md names this function with these parameters; with a type for accepted settings its callers would make one for this call.
pub fn take_file(form: Form, s: Settings, file: &[u8], memory: &mut [u8]) -> Result<(), Refusal>
    requires { Accepted s × (length memory.old ≡ depth s * n_mux s) }
    ensures taken { FileTaken form s file.now (is_ok result) memory.new }
    ensures refused { IfErr result (λ e. number e ≡ 18) }
{
    let depth = answers::depth(s);
    if file.len() != file_bytes(form, s) {
        return Err(Refusal::HoldFile);
    }
    if !heading_right(file, depth) {
        return Err(Refusal::HoldFile);
    }
    let n = tables::n_mux(s.mode, s.occupancy);
    take_lines(form, n, file, memory, depth)?;
    if !bytes_pass(msc_constellation(s.msc), false, memory) {
        return Err(Refusal::HoldFile);
    }
    Ok(())
}
