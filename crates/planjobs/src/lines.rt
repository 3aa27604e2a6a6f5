// Lines of a plan's file.
// Stays: places go with the line, since `number_in`, `first_in` and `settings_from` are places of the whole line; of a rest `&line[from..]` each clause
// would say `from + next`, and `rule_line` add them up.
ghost use Rattle.std.specs.Prelude.{◌≡◌, true, cond, ◌&&◌, ◌+◌, ◌≤◌, Some, None, IfNone, IfSome, length, get_or, drop, max, eqb};
ghost use Rattle.lists.specs.Lists.{table};
ghost use Rattle.line.specs.Read.{digits};
ghost use Rattle.numerals.specs.Digits.{are_hex};
ghost use Rattle.planjobs.specs.Lines.{number_in, minute_bytes, is_rule, rule_byte, rule_in};
ghost use Rattle.planjobs.specs.Clauses.{no_number, NumberAt};

use crate::Number;
use line::read::are_digits;
use numerals::digits::read_hex;
use numerals::numbers::{grown, is_digit};
use plan::rules::RULE_BYTES;

// Whether a space stands at a place.
#[tactic(auto, using(crate::proofs::Scanned::no_space))]
fn is_space(line: &[u8], at: usize) -> bool
    ensures { result ≡ eqb (get_or line.now at 0) 32 }
{
    at < line.len() && line[at] == b' '
}

// The digits from a place on, as a number: 0 where none stands there, and the place after it is then the same one.
fn digits_from(line: &[u8], from: usize) -> Number
    ensures value { result ≡ number_in line.now from }
    ensures next_in_bounds { result.next ≤ max from (length line.now) }
{
    let mut value = 0;
    for next in from..line.len() {
        let byte = line[next];
        if !is_digit(byte) {
            return Number { value, next };
        }
        value = grown(value, byte - b'0');
    }
    let next = from.max(line.len());
    Number { value, next }
}

// The decimal number from a place on, or none where no digit stands there.
pub fn number(line: &[u8], from: usize) -> Option<Number>
    ensures none { IfNone result (number_in line.now from ≡ no_number from) }
    ensures some { IfSome result (λ n. NumberAt line.now from n) }
    ensures next_in_bounds { IfSome result (λ n. n.next ≤ length line.now) }
{
    let number = digits_from(line, from);
    (from < number.next).then_some(number)
}

// A minute in two bytes, high byte first; one that they do not hold is the greatest of them.
#[tactic(auto, unfolding(crate::specs::Lines::minute_of))]
fn bytes_of(minute: u32) -> [u8; 2]
    ensures { result ≡ minute_bytes minute }
{
    u16::try_from(minute).unwrap_or(u16::MAX).to_be_bytes()
}

// The fourteen bytes of a rule from its minutes and the digits of its settings.
fn rule_of(first: u32, after: u32, settings: &[u8]) -> [u8; RULE_BYTES]
    requires { are_hex 10 settings.now ≡ true }
    ensures { result ≡ table (rule_byte first after settings.now) 0 14 }
{
    let mut rule = [0; RULE_BYTES];
    rule[..2].copy_from_slice(&bytes_of(first));
    rule[2..4].copy_from_slice(&bytes_of(after));
    rule[4..].copy_from_slice(&read_hex::<10>(settings));
    rule
}

// Whether twenty hexadecimal digits stand from a place to the end of the line.
fn ends_in_digits(line: &[u8], from: usize) -> bool
    requires { from ≤ 1000 }
    ensures { result ≡ (eqb (length line.now) (from + 20) && digits (drop from line.now) 0 20) }
{
    if line.len() != from + 20 {
        return false;
    }
    are_digits(&line[from..], 20)
}

// The fourteen bytes of a line's rule.
pub fn rule_line(line: &[u8]) -> Option<[u8; RULE_BYTES]>
    requires { length line.now ≤ 256 }
    ensures { result ≡ cond (is_rule line.now) (Some (rule_in line.now)) None }
{
    let first = number(line, 0)?;
    let a = first.next;
    let after = number(line, a + 1)?;
    let b = after.next;
    let ends = is_space(line, b) & ends_in_digits(line, b + 1);
    let good = (line.len() < 256) & (is_space(line, a) & ends);
    if !good {
        return None;
    }
    Some(rule_of(first.value, after.value, &line[b + 1..]))
}
