// What follows from a read, and from a super frame and its write: the run goes on, or its end.
ghost use Rattle.std.specs.Prelude.{◌≡◌, Err};
ghost use Rattle.refusal.specs.Numbers.{number};
ghost use Rattle.turns.specs.Turn.{after_read, after_all, after_call, after_failure, after_write};

use crate::{End, Failure};
use refusal::Refusal;

// After a read of so many bytes of those wanted: `ended` says that a further read found the end of the input, and did not fail.
#[tactic(auto, unfolding(crate::specs::Turn::after_read))]
pub fn after_read(got: usize, wanted: usize, ended: bool) -> Result<(), End>
    ensures { result ≡ after_read got wanted ended }
{
    if got == wanted {
        return Ok(());
    }
    if !ended {
        return Err(End::Unread);
    }
    if got == 0 {
        return Err(End::Whole);
    }
    Err(End::Inside)
}

// After a read of a whole input into so many bytes, more than any file of the job has: one that fills them is taken too, and refused for its length.
#[tactic(auto, unfolding(crate::specs::Turn::after_all))]
pub fn after_all(got: usize, most: usize, ended: bool) -> Result<usize, End>
    ensures { result ≡ after_all got most ended }
{
    if got == most || ended {
        Ok(got)
    } else {
        Err(End::Unread)
    }
}

// After a call that refused, which names no block.
impl From<Refusal> for End {
    ghost from_gives = { λ refusal end. after_call (number refusal) ≡ Err end };

    #[tactic(auto, using(refusal::proofs::Positive::number_positive), unfolding(crate::specs::Turn::after_call))]
    fn from(refusal: Refusal) -> End {
        End::Stopped(refusal.number(), 0)
    }
}

// After a super frame or a line that did not go through.
impl From<Failure> for End {
    ghost from_gives = { λ failure end. end ≡ after_failure failure };

    #[tactic(auto, unfolding(crate::specs::Turn::after_failure))]
    fn from(failure: Failure) -> End {
        match failure {
            Failure::Refused(number, block) => End::Stopped(number, block),
            Failure::Bad => End::BadLine,
        }
    }
}

// After a super frame or a line, and a write of what it gave: one that did not go through ends the run whatever the write says.
#[tactic(auto, unfolding(crate::specs::Turn::after_write))]
pub fn after_write<T: Drop>(outcome: Result<T, Failure>, written: bool) -> Result<(), End>
    ensures { result ≡ after_write outcome written }
{
    outcome?;
    if !written {
        return Err(End::Unwritten);
    }
    Ok(())
}
