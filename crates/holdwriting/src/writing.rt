// Bytes of cells to lines of digits. 02, S-7.
ghost use Rattle.std.specs.Prelude.{◌≡◌, ◌*◌, ◌<◌, length, get_or};
ghost use Rattle.std.proofs.lemmas.List.Edits.{sets};
ghost use Rattle.cellbytes.specs.CellBytes.{signed, numbers};
ghost use Rattle.holdlines.specs.declared.Form.TheVariants.{Old};
ghost use Rattle.holdlines.specs.Files.{number_digits, written, all_written, ended, file_of};
ghost use Rattle.holdwriting.specs.Clauses.{half_of, LineRoom, LinesRoom, lines_from, held_from, FileRoom};

use holdlines::Form;
use holdlines::digits::digit;
use holdlines::lengths::{LINE_FEED, line_bytes};
use partlengths::tables;
use settings::{Settings, answers};

// The four bits of number k of cells: the byte's high half for an even one.
fn half(b: u8, k: usize) -> u8
    ensures { (result ≡ half_of b k) × (result < 16) }
{
    if k % 2 == 0 {
        return b / 16;
    }
    b % 16
}

// Digit j of four: the lowest is that of the four bits, all above it are those of the sign.
fn wide_digit(v: u8, j: usize) -> u8
    requires { (v < 16) × (j < 4) }
    ensures { result ≡ get_or (written Old (signed v)) j 0 }
{
    if j == 3 {
        return digit(v);
    }
    if v < 8 {
        return b'0';
    }
    b'F'
}

// Digit k of a line.
fn line_digit(form: Form, cells: &[u8], k: usize) -> u8
    requires { k < 2 * length cells.now * number_digits form }
    ensures { result ≡ get_or (all_written form (numbers cells.now)) k 0 }
{
    // Stays: the form comes from the command line, or with the name of a C call, as a value, and its digits are written here.
    match form {
        Form::Old => wide_digit(half(cells[k / 8], k / 4), k % 4),
        Form::New => digit(half(cells[k / 2], k)),
    }
}

// The line of some cells.
fn put_line(form: Form, cells: &[u8], line: &mut [u8])
    requires { LineRoom form cells.now line.old }
    ensures { line.new ≡ ended (all_written form (numbers cells.now)) }
{
    let last = line.len() - 1;
    for k in 0..last {
        line[k] = line_digit(form, cells, k);
    }
    line[last] = LINE_FEED;
}

// The lines of every slot after the heading.
fn put_lines(form: Form, n: usize, memory: &[u8], out: &mut [u8], lines: usize)
    requires { LinesRoom form n lines memory.now out.old }
    ensures { out.new ≡ sets out.old 3 (lines_from form n lines memory.now) }
{
    let long = line_bytes(form, n);
    for k in 0..lines {
        let from = k * n;
        let at = 3 + k * long;
        put_line(form, &memory[from..from + n], &mut out[at..at + long]);
    }
}

// A file: position and count, and the lines of memory's slots.
pub fn put_file(form: Form, s: Settings, position: u8, count: u8, memory: &[u8], out: &mut [u8])
    requires { FileRoom form s position count memory.now out.old }
    ensures { out.new ≡ file_of form s (held_from position count memory.now) }
{
    out[0] = digit(position);
    out[1] = digit(count);
    out[2] = LINE_FEED;
    put_lines(
        form,
        tables::n_mux(s.mode, s.occupancy),
        memory,
        out,
        answers::depth(s),
    );
}
