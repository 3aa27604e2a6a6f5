// What is said on standard error.
ghost use Rattle.std.specs.Prelude.{◌≡◌, ◌+◌, ◌≤◌, ◌++◌, length};
ghost use Rattle.words.specs.Report.{block_part, refused_part, why, failed, unit_word, end_line, report_of, refused_text, settings_line, usage};

use crate::Counted;
use crate::text::Text;
use crate::texts::{block_words, refusal_words};
use turns::End;

// The block of a refusal; refusals other than 13 and 14 name none.
// Stays: docs/PROMISES.md names `report`, which says a block with any number of an `End`, so that the number is no `Refusal`.
#[tactic(auto, using(std::proofs::Common::append_assoc), unfolding(crate::specs::Report::block_part, console::specs::Text::bytes_in, lists::specs::Lists::table))]
fn say_block(text: &mut Text, number: u8, block: u8)
    requires { length text.old + 100 ≤ 1024 }
    ensures said { text.new ≡ text.old ++ block_part number block }
    ensures room { length text.new ≤ length text.old + 100 }
{
    if number == 13 || number == 14 {
        text.put(b", block ");
        text.put_decimal(block as u64);
        text.put(b", ");
        text.put(block_words(number, block));
    }
}

// A refusal: its number, its words, and its block.
// Stays: docs/PROMISES.md names `report`, which says any number of an `End`, also one that no refusal has.
#[tactic(auto, using(std::proofs::Common::append_assoc), unfolding(crate::specs::Report::refused_part, console::specs::Text::bytes_in, lists::specs::Lists::table))]
pub fn say_refused(text: &mut Text, number: u8, block: u8)
    requires { length text.old + 200 ≤ 1024 }
    ensures said { text.new ≡ text.old ++ refused_part number block }
    ensures room { length text.new ≤ length text.old + 200 }
{
    text.put(b"refused: ");
    text.put_decimal(number as u64);
    text.put(b", ");
    text.put(refusal_words(number));
    say_block(text, number, block);
}

// Why a super frame did not go through.
#[tactic(auto, using(std::proofs::Common::append_assoc), unfolding(crate::specs::Report::why, console::specs::Text::bytes_in, lists::specs::Lists::table))]
pub fn say_why(text: &mut Text, end: End)
    requires { length text.old + 200 ≤ 1024 }
    ensures said { text.new ≡ text.old ++ why end }
    ensures room { length text.new ≤ length text.old + 200 }
{
    match end {
        End::Whole => {}
        End::Inside => text.put(b"the input ends inside it"),
        End::Unread => text.put(b"not read: the input failed"),
        End::Unwritten => text.put(b"not written: the output failed"),
        End::Stopped(number, block) => say_refused(text, number, block),
        End::BadLine => text.put(b"bad line"),
    }
}

// Whether a run ended otherwise than after a whole super frame.
#[tactic(auto, using(std::proofs::Common::append_assoc), unfolding(crate::specs::Report::failed, console::specs::Text::bytes_in, lists::specs::Lists::table))]
pub fn failed(end: End) -> bool
    ensures { result ≡ failed end }
{
    !matches!(end, End::Whole)
}

// What a run is counted by.
#[tactic(auto, using(std::proofs::Common::append_assoc), unfolding(crate::specs::Report::unit_word, console::specs::Text::bytes_in, lists::specs::Lists::table))]
fn unit_word(unit: Counted) -> &'static [u8]
    ensures value { result.now ≡ unit_word unit }
    ensures short { length result.now ≤ 16 }
{
    match unit {
        Counted::SuperFrame => b"super frame",
        Counted::MultiplexFrame => b"multiplex frame",
        Counted::Line => b"line",
    }
}

// The line of what ended a run at a super frame, if anything did but the end of the input.
#[tactic(auto, using(std::proofs::Common::append_assoc), unfolding(crate::specs::Report::end_line, console::specs::Text::bytes_in, lists::specs::Lists::table))]
fn say_end(text: &mut Text, unit: Counted, end: End, index: u64)
    requires { length text.old + 256 ≤ 1024 }
    ensures said { text.new ≡ text.old ++ end_line unit end index }
    ensures room { length text.new ≤ length text.old + 256 }
{
    if failed(end) {
        text.put(unit_word(unit));
        text.put(b" ");
        text.put_decimal(index);
        text.put(b": ");
        say_why(text, end);
        text.put(b"\n");
    }
}

// What is said at the end of a run.
#[tactic(auto, using(std::proofs::Common::append_assoc), unfolding(crate::specs::Report::report_of, console::specs::Text::bytes_in, lists::specs::Lists::table))]
pub fn report(unit: Counted, end: End, count: u64) -> Text
    ensures { result ≡ report_of unit end count }
{
    let mut text = Text::new();
    say_end(&mut text, unit, end, count);
    text.put(unit_word(unit));
    text.put(b"s: ");
    text.put_decimal(count);
    text.put(b"\n");
    text
}

// What is said of a line.
pub fn line_said(end: End, index: u64) -> Text
    ensures { result ≡ end_line Counted.Line end index }
{
    let mut text = Text::new();
    say_end(&mut text, Counted::Line, end, index);
    text
}

// What is said of a thing that is refused, by the words that name it.
// Stays: docs/PROMISES.md names `settings_refused`, which says any number, so that this takes any.
#[tactic(auto, using(std::proofs::Common::append_assoc), unfolding(crate::specs::Report::refused_text, console::specs::Text::bytes_in, lists::specs::Lists::table))]
pub fn refused_said(thing: &[u8], number: u8) -> Text
    requires { length thing.now ≤ 64 }
    ensures { result ≡ refused_text thing.now number }
{
    let mut text = Text::new();
    text.put(thing);
    say_refused(&mut text, number, 0);
    text.put(b"\n");
    text
}

// What is said of settings that are refused.
// Stays: docs/PROMISES.md names this function, which says any number, also one that no refusal has.
#[tactic(auto, unfolding(crate::specs::Report::settings_line, crate::specs::Report::refused_text, console::specs::Text::bytes_in, lists::specs::Lists::table))]
pub fn settings_refused(number: u8) -> Text
    ensures { result ≡ settings_line number }
{
    refused_said(b"settings: ", number)
}

// What is said where the arguments are no job.
#[tactic(auto, using(std::proofs::Common::append_assoc), unfolding(crate::specs::Report::usage, console::specs::Text::bytes_in, lists::specs::Lists::table))]
pub fn usage() -> &'static [u8]
    ensures { result.now ≡ usage }
{
    b"usage: desk JOB ARGUMENTS\n\
        \x20 code SETTINGS [FROM [TO]]   super frames of bytes to super frames of cells\n\
        \x20 read SETTINGS               super frames of cells to super frames of bytes\n\
        \x20 read-on SETTINGS            the same past spoiled cells, with marks of what is lost\n\
        \x20 grid SETTINGS               super frames of cells to grids by symbol and carrier\n\
        \x20 ungrid SETTINGS             grids to super frames of cells\n\
        \x20 fac-build SETTINGS          lines of fourteen fields in decimal to FAC blocks\n\
        \x20 fac-read SETTINGS           lines of FAC blocks to their fourteen fields\n\
        \x20 nearest                     lines of 130 received bits, 0, 1 or ?, to FAC blocks\n\
        \x20 mux SETTINGS DESCRIPTION    logical frames of streams to multiplex frames\n\
        \x20 demux SETTINGS DESCRIPTION  multiplex frames to logical frames of streams\n\
        \x20 to-new SETTINGS             an old hold file to a new one\n\
        \x20 to-old SETTINGS             a new hold file to an old one\n\
        \x20 preview SETTINGS HOLDFILE   the next super frame's bytes to its cells\n\
        \x20 plan FILE [SUPERFRAME]      a week's stretches, or a super frame's rule and mark\n\
        \x20 fit SETTINGS BYTES          super frames, memory and zero bits for so many bytes\n\
        SETTINGS: twenty hexadecimal digits, 0 to 9 and A to F\n\
        FROM, HOLDFILE: a new hold file to begin from, for FROM also - for a reset; TO: one to store at the end\n\
        DESCRIPTION: decimal numbers joined by commas, for each stream its bytes in part A and in part B\n\
        FILE: a plan, one rule a line: FIRST AFTER SETTINGS, in minutes of the week; SUPERFRAME: 0 to 503999\n\
        BYTES: a decimal number below 4294967296\n"
}
