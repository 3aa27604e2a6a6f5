// The week plan: drm_plan (02, S-12).
ghost use Rattle.std.specs.Prelude.{◌≡◌};
ghost use Rattle.settingbytes.specs.Numbers.{yielded};
ghost use Rattle.drmcoder.specs.Plans.{plan_bytes};

use plan::answers;
use plan::rules::RULE_BYTES;
use refusal::{Refusal, answer};

// The rule's place in the list and the mark of a super frame of the week.
#[tactic(auto, using(crate::proofs::Planned::plan_right), unfolding(crate::specs::Plans::plan_bytes))]
pub fn drm_plan(rules: &[u8], superframe: u32, bytes: &mut [u8]) -> u8
    ensures { yielded result bytes.new ≡ plan_bytes rules.now superframe bytes.old }
{
    if rules.len() % RULE_BYTES != 0 || bytes.len() != 2 {
        return Refusal::FixedLength.number();
    }
    let found = answers::answer(rules, superframe);
    answer(answers::put_answer(found, bytes))
}
