// Why a job makes nothing of a line or a multiplex frame.
ghost use Rattle.std.specs.Prelude.{◌≡◌};
ghost use Rattle.turns.specs.Yield.{failure_of};

use crate::Failure;
use refusal::Refusal;

// A refusal that names no block.
impl From<Refusal> for Failure {
    ghost from_gives = { λ refusal failure. failure ≡ failure_of refusal };

    fn from(refusal: Refusal) -> Failure {
        Failure::Refused(refusal.number(), 0)
    }
}
