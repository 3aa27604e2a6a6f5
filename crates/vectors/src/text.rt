// Lines of text on standard output. The functions promise nothing: what they print is compared by the gate with the stored text.
use settings::Settings;
use std::fmt::{self, Write};

// The descriptor of standard output.
const STDOUT_FILENO: i32 = 1;

// The hexadecimal digits.
const DIGITS: [u8; 16] = *b"0123456789ABCDEF";

// Standard output itself.
#[derive(Drop)]
struct Output;

impl fmt::Write for Output {
    // A piece of a text, written whole by itself. One that cannot be written is passed over, and the pieces behind it are written all the same.
    fn write_str(&mut self, piece: &str) -> fmt::Result {
        io::write_all(STDOUT_FILENO, piece.as_bytes());
        Ok(())
    }
}

// Prints a text: each of its words and each of its values is a piece. What cannot be written is passed over: the comparison misses it.
pub fn print<D: fmt::Display + Drop>(text: D) {
    let _ = Output.write(text);
}

// A byte in two hexadecimal digits, 0 to 9 and A to F.
// Stays: `{:02X}` makes two pieces of a byte, its zero and its digit.
fn byte(b: u8) {
    let text = [DIGITS[usize::from(b / 16)], DIGITS[usize::from(b % 16)]];
    io::write_all(STDOUT_FILENO, &text);
}

// Settings in twenty digits.
pub fn settings(s: Settings) {
    let [high, low] = s.x.to_be_bytes();
    let bytes = [
        s.mode,
        s.occupancy,
        s.msc,
        s.levela,
        s.levelb,
        s.vspp,
        high,
        low,
        s.sdc,
        s.interleaving,
    ];
    bytes.into_iter().for_each(byte);
}

// A space and a number in decimal.
pub fn number(n: u64) {
    print(format_args!(" {n}"));
}

// The end of a line.
pub fn end() {
    print("\n");
}
