// What arguments ask for a plan.
ghost use Rattle.std.specs.Prelude.{◌≡◌};
ghost use Rattle.planjobs.specs.Arguments.{asked_of};

use crate::Asked;
use crate::lines::number;

// What so many arguments ask for, of which the fourth may be a super frame.
pub fn asked(count: usize, frame: &[u8]) -> Option<Asked>
    ensures { result ≡ asked_of count frame.now }
{
    if count == 3 {
        return Some(Asked::Week);
    }
    let t = number(frame, 0)?;
    if (frame.len() < 32) & (t.next == frame.len()) {
        return Some(Asked::SuperFrame(t.value));
    }
    None
}
