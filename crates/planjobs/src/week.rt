// What is printed of a plan.
ghost use Rattle.std.specs.Prelude.{◌≡◌, ℕ, ◌+◌, ◌≤◌, List, ◌++◌, length};
ghost use Rattle.plan.specs.Rules.{rules_of};
ghost use Rattle.plan.specs.Answers.{mark_number};
ghost use Rattle.plan.specs.Clauses.{Covered};
ghost use Rattle.planjobs.specs.Week.{line_yield, answer_text, answer_printed, closing_frame, closing_text, stretch_yield, stretch_printed, refused_line};
ghost use Rattle.planjobs.specs.Clauses.{closing_said, stretch_said};

use crate::Stretch;
use plan::answers::answer;
use plan::marks::{MINUTE_FRAMES, mark};
use plan::rules::rule_at;
use plan::{Answer, Mark};
use refusal::Refusal;
use words::report::refused_said;
use words::text::Text;

// Place and mark.
#[tactic(auto, using(std::proofs::Common::append_assoc), unfolding(crate::specs::Week::answer_text, line::specs::Written::space, line::specs::Written::line_end))]
fn answer_text(a: Answer) -> Text
    ensures { result ≡ answer_text a.place (mark_number a.mark) }
{
    let mut text = Text::new();
    text.put_decimal(a.place as u64);
    text.put(b" ");
    text.put_decimal(a.mark as u64);
    text.put(b"\n");
    text
}

// `plan FILE SUPERFRAME`.
pub fn answer_line(rules: &[u8], t: u32) -> Result<Text, Refusal>
    ensures { (out : List ℕ) → line_yield result out ≡ answer_printed (rules_of rules.now) t out }
{
    Ok(answer_text(answer(rules, t)?))
}

// The first super frame of a closing, or a hyphen.
fn put_closing(text: &mut Text, closing: Option<u32>)
    requires { length text.old + 20 ≤ 1024 }
    ensures put { text.new ≡ text.old ++ closing_said closing }
    ensures room { length text.new ≤ length text.old + 20 }
{
    match closing {
        Some(frame) => text.put_decimal(frame as u64),
        None => text.put(b"-"),
    }
}

// A stretch: its first super frame, its rule's place, its closing.
#[tactic(auto, using(std::proofs::Common::append_assoc), unfolding(line::specs::Written::space, line::specs::Written::line_end))]
fn stretch_text(frame: u32, place: u8, closing: Option<u32>) -> Text
    ensures { result ≡ stretch_said frame place (closing_said closing) }
{
    let mut text = Text::new();
    text.put_decimal(frame as u64);
    text.put(b" ");
    text.put_decimal(place as u64);
    text.put(b" ");
    put_closing(&mut text, closing);
    text.put(b"\n");
    text
}

// The first super frame of the closing with which a rule ends, or none.
fn closing_frame(rules: &[u8], after: u16) -> Option<u32>
    requires covered { Covered rules.now }
    requires le_after { 1 ≤ after }
    requires after_bound { after ≤ 10080 }
    ensures { closing_said result ≡ closing_text (closing_frame (rules_of rules.now) after) }
{
    let end = MINUTE_FRAMES * after as u32;
    if mark(rules, end - 1) == Mark::Closing {
        return Some(end - 2);
    }
    None
}

// `plan FILE`: the stretch that begins with a minute.
pub fn stretch_line(rules: &[u8], minute: u16) -> Result<Stretch, Refusal>
    ensures { (out : List ℕ) → stretch_yield result out ≡ stretch_printed (rules_of rules.now) minute out }
{
    let frame = MINUTE_FRAMES * minute as u32;
    let a = answer(rules, frame)?;
    let next = rule_at(rules, a.place as usize).after;
    let closing = closing_frame(rules, next);
    let line = stretch_text(frame, a.place, closing);
    Ok(Stretch { line, next })
}

// What is said of a plan that is refused.
// Stays: docs/PROMISES.md names this function, which says any number, also one that no refusal has.
#[tactic(auto, unfolding(crate::specs::Week::refused_line, words::specs::Report::refused_text, console::specs::Text::bytes_in, lists::specs::Lists::table))]
pub fn refused_line(number: u8) -> Text
    ensures { result ≡ refused_line number }
{
    refused_said(b"plan: ", number)
}
