// The job on a week plan.
ghost use Rattle.std.specs.Prelude.{◌≡◌, ◌≤◌, length, IfSome};

use pipes::arguments::{argument, argument_count};
use pipes::input::read_line;
use pipes::output::{STDERR_FILENO, STDOUT_FILENO, say_line, say_usage};
use plan::rules::{RULE_BYTES, WEEK_MINUTES};
use planjobs::arguments::asked;
use planjobs::{Asked, lines, week};
use refusal::Refusal;
use std::fs::File;
use std::io::Error;
use turns::{End, input};
use words::text::Text;

// The rule of a file's next line.
fn next_rule(from: &mut File) -> Result<[u8; RULE_BYTES], End> {
    let mut line = [0u8; 256];
    let gathered = read_line(from, &mut line);
    input::after_line(gathered.count, gathered.seen)?;
    lines::rule_line(&line[..gathered.count]).ok_or(End::BadLine)
}

// How many rules a file has up to the first line that is none, if nothing is wrong with its lines. One more than a plan may have is enough to refuse it.
fn read_rules(from: &mut File, rules: &mut [u8]) -> Option<usize>
    requires { length rules.old ≡ 910 }
    ensures { IfSome result (λ count. count ≤ 65) }
{
    for count in 0..65 {
        let at = RULE_BYTES * count;
        match next_rule(from) {
            Ok(rule) => rules[at..at + RULE_BYTES].copy_from_slice(&rule),
            Err(end) => {
                let wrong = say_line(end, count as u64 + 1);
                return if wrong { None } else { Some(count) };
            }
        }
    }
    Some(65)
}

// Writes a line; where that fails, says so with the line's number, and answers false.
fn print(line: &Text, index: u64) -> bool {
    let written = io::write_all(STDOUT_FILENO, line.bytes());
    if !written {
        say_line(End::Unwritten, index);
    }
    written
}

fn say_plan(refusal: Refusal) {
    let text = week::refused_line(refusal.number());
    io::write_all(STDERR_FILENO, text.bytes());
}

// Place and mark of a super frame.
fn print_answer(rules: &[u8], t: u32) -> Result<(), Refusal> {
    let line = week::answer_line(rules, t)?;
    print(&line, 1);
    Ok(())
}

// The week's stretches, at most one for each rule, up to the first that is not written.
fn print_week(rules: &[u8]) -> Result<(), Refusal> {
    let mut minute = 0;
    for index in 1..65 {
        let stretch = week::stretch_line(rules, minute)?;
        if !print(&stretch.line, index) || stretch.next == WEEK_MINUTES {
            break;
        }
        minute = stretch.next;
    }
    Ok(())
}

// What is asked of a plan.
fn print_plan(asked: Asked, rules: &[u8]) {
    // Stays: what is asked comes from the command line as a value, so what is printed is found by a `match`.
    let printed = match asked {
        Asked::Week => print_week(rules),
        Asked::SuperFrame(t) => print_answer(rules, t),
    };
    if let Err(refusal) = printed {
        say_plan(refusal);
    }
}

// The same of the plan in an open file.
fn plan_from(asked: Asked, from: File) {
    let mut from = from;
    let mut bytes = [0u8; 910];
    if let Some(count) = read_rules(&mut from, &mut bytes) {
        print_plan(asked, &bytes[..RULE_BYTES * count]);
    }
}

// The system's number of the error that bytes are no text.
const NO_TEXT: i32 = 84;

// Opens the file of a name, which must be text.
fn open_named(rt: HostRuntime, path: &[u8]) -> Result<File, Error> {
    match str::from_utf8(path) {
        Ok(name) => File::open(&rt, name),
        Err(_) => Err(Error::from_raw_os_error(NO_TEXT)),
    }
}

// The system's words for an error, without its number, which std puts behind them.
fn say_words(words: &str) {
    let (said, _) = words.split_once(" (os error ").unwrap_or((words, ""));
    io::write_all(STDERR_FILENO, said.as_bytes());
}

// A line: the name, and why it was not opened.
fn say_unopened(rt: HostRuntime, path: &[u8], error: Error) {
    io::write_all(STDERR_FILENO, path);
    io::write_all(STDERR_FILENO, b": ");
    if let Ok(words) = error.to_string(rt.alloc()) {
        say_words(words.as_str());
    }
    io::write_all(STDERR_FILENO, b"\n");
}

// The same of the plan in the file that the second argument names.
fn plan_named(rt: HostRuntime, asked: Asked) {
    let mut path = io::buffer();
    let n = argument(rt, 2, &mut path);
    match open_named(rt, &path[..n]) {
        Ok(from) => plan_from(asked, from),
        Err(error) => say_unopened(rt, &path[..n], error),
    }
}

// What the arguments ask of a plan.
pub fn begin(rt: HostRuntime) {
    let mut frame = [0u8; 32];
    let n = argument(rt, 3, &mut frame);
    let Some(what) = asked(argument_count(rt), &frame[..n]) else {
        say_usage();
        return;
    };
    plan_named(rt, what);
}
