// What goes out: the descriptors, and what is said on standard error.

use endings::{Lost, lines};
use turns::End;
use words::text::Text;
use words::{Counted, report};

// The descriptors of what goes out.
pub const STDOUT_FILENO: i32 = 1;

pub const STDERR_FILENO: i32 = 2;

pub fn say_usage() {
    io::write_all(STDERR_FILENO, report::usage());
}

fn say(text: &Text) {
    io::write_all(STDERR_FILENO, text.bytes());
}

// Stays: a job's `Failure` has its refusal as a number (the line in `turns` says why), and so has what is said here.
pub fn say_settings(number: u8) {
    say(&report::settings_refused(number));
}

pub fn say_run(unit: Counted, end: End, count: u64) {
    say(&report::report(unit, end, count));
}

// Says what is wrong with a line, and answers whether anything is.
pub fn say_line(end: End, index: u64) -> bool {
    say(&report::line_said(end, index));
    report::failed(end)
}

pub fn say_lost(lost: Lost) {
    say(&lines::lost_said(lost));
}

pub fn say_file(end: End) {
    say(&lines::file_said(end));
}
