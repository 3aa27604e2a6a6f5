// A plan's answer into a caller's two bytes, for a caller outside that has the refusal and the mark as bytes. Nothing here calls it.
ghost use Rattle.std.specs.Prelude.{◌≡◌, length};
ghost use Rattle.settingbytes.specs.Numbers.{yielded};
ghost use Rattle.plan.specs.Answers.{plan_into};
ghost use Rattle.plan.specs.Numbered.{numbered_answer};

// A rule's place and a number for the mark, beside the number of a refusal: 0 is acceptance, and every other number refuses.
// Stays: a Result has no Err for a number that is no refusal's, and `Mark` has no number above 2.
#[derive(Clone, Copy)]
pub struct NumberedAnswer {
    pub refusal: u8,
    pub place: u8,
    pub mark: u8,
}

// An answer into the caller's two bytes, which a refusal leaves as they were.
#[tactic(auto, unfolding(crate::specs::Answers::plan_into))]
pub fn put_answer(a: NumberedAnswer, bytes: &mut [u8]) -> u8
    requires { length bytes.old ≡ 2 }
    ensures { yielded result bytes.new ≡ plan_into (numbered_answer a) bytes.old }
{
    // Stays: the refusal is a byte, and its number tells acceptance.
    if a.refusal == 0 {
        bytes.copy_from_slice(&[a.place, a.mark]);
    }
    a.refusal
}
