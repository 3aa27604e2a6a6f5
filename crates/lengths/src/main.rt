// Reads a line of settings from standard input and writes the line that answers it.
#![tactic(auto)]

ghost use Rattle.std.specs.Prelude.{◌≤◌};

use std::io::Read;

const STDOUT_FILENO: i32 = 1;

const STDERR_FILENO: i32 = 2;

// One byte of the input, if there is one more.
fn next_byte(rt: HostRuntime) -> Option<u8> {
    let mut one = [0u8; 1];
    match rt.stdin().read(&mut one) {
        Ok(1) => Some(one[0]),
        _ => None,
    }
}

// Reads up to the first line feed, the end of the input or 21 bytes, and answers how many.
fn read_line(rt: HostRuntime, bytes: &mut [u8; 21]) -> usize
    ensures { result ≤ 21 }
{
    for n in 0..21 {
        let Some(byte) = next_byte(rt) else {
            return n;
        };
        bytes[n] = byte;
        if byte == b'\n' {
            return n + 1;
        }
    }
    21
}

// Writes a text, or says that it could not be written.
fn write_text(text: &[u8]) {
    if !io::write_all(STDOUT_FILENO, text) {
        io::write_all(STDERR_FILENO, b"not written: the output failed\n");
    }
}

fn main(rt: HostRuntime) {
    let mut bytes = [0u8; 21];
    let n = read_line(rt, &mut bytes);
    let mut out = [0u8; 32];
    let k = line::write::answer(&bytes[..n], &mut out);
    if let Some(text) = out.get(..k) {
        write_text(text);
    }
}
