// The plan's answer for a super frame. 02, S-12.
ghost use Rattle.std.specs.Prelude.{◌≡◌, length};
ghost use Rattle.refusal.specs.Numbers.{answer};
ghost use Rattle.settingbytes.specs.Numbers.{yielded};
ghost use Rattle.plan.specs.Rules.{rules_of};
ghost use Rattle.plan.specs.Answers.{answered, answer_of, plan_into};

use crate::Answer;
use crate::marks::{MINUTE_FRAMES, mark};
use crate::refusals::check;
use crate::rules::find;
use refusal::Refusal;

// The rule's place and the mark. Bytes after the last whole rule are not looked at.
#[tactic(auto, using(refusal::proofs::Positive::number_positive), unfolding(crate::specs::Answers::answer_of, crate::specs::Answers::refused))]
pub fn answer(rules: &[u8], t: u32) -> Result<Answer, Refusal>
    ensures { answered result ≡ answer_of (rules_of rules.now) t }
{
    check(rules, t)?;
    let found = find(rules, (t / MINUTE_FRAMES) as u16);
    Ok(Answer {
        place: found.place as u8,
        mark: mark(rules, t),
    })
}

// An answer into the caller's two bytes, which a refusal leaves as they were.
// Stays: `put_grid_sizes` writes other fields; one function for both would be handed them as an array, and save `copy_from_slice` alone.
#[tactic(auto, using(refusal::proofs::Positive::number_positive), unfolding(crate::specs::Answers::plan_into, crate::specs::Answers::refused))]
pub fn put_answer(found: Result<Answer, Refusal>, bytes: &mut [u8]) -> Result<(), Refusal>
    requires { length bytes.old ≡ 2 }
    ensures { yielded (answer result) bytes.new ≡ plan_into (answered found) bytes.old }
{
    let a = found?;
    bytes.copy_from_slice(&[a.place, a.mark.number()]);
    Ok(())
}
