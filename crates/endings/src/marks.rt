// What a run that reads on has lost so far. 02, S-13.
ghost use Rattle.std.specs.Prelude.{◌≡◌, ◌+◌, get_or};
ghost use Rattle.endings.specs.Lost.{added, lost_after};

use crate::Lost;

// A byte for each of three FAC blocks, the SDC block and three frames.
const MARKS: usize = 7;

// A number with three marks more.
#[tactic(auto, unfolding(crate::specs::Lost::added))]
fn added(n: u64, marks: [u8; 3]) -> u64
    ensures { result ≡ added n (get_or marks 0 0 + get_or marks 1 0 + get_or marks 2 0) }
{
    let [a, b, c] = marks;
    n.saturating_add(u64::from(a) + u64::from(b) + u64::from(c))
}

// With a super frame more, whose marks come first in what was written for it.
#[tactic(auto, unfolding(crate::specs::Lost::lost_after, crate::specs::Lost::added))]
pub fn lost_after(lost: Lost, written: &[u8]) -> Lost
    ensures { result ≡ lost_after lost written.now }
{
    if written.len() < MARKS {
        return lost;
    }
    Lost {
        fac: added(lost.fac, [written[0], written[1], written[2]]),
        sdc: lost.sdc.saturating_add(u64::from(written[3])),
        frames: added(lost.frames, [written[4], written[5], written[6]]),
    }
}
