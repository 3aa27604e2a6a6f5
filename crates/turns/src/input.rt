// A line read byte by byte, what follows from it, and what ends a run of lines.
ghost use Rattle.std.specs.Prelude.{◌≡◌, set, ◌≤◌};
ghost use Rattle.turns.specs.Line.{seen_of, place_of, gathered, after_line, line_over};

use crate::{End, Seen};

// What a read of one byte found; it answers how many bytes came, 0 at the end of the input.
// Stays: docs/PROMISES.md names this function, which says so of every number and either end, also of those that no read gives together.
#[tactic(auto, unfolding(crate::specs::Line::seen_of))]
pub fn seen(got: usize, ended: bool, byte: u8) -> Seen
    ensures { result ≡ seen_of got ended byte }
{
    if got != 1 {
        if ended {
            return Seen::Ended;
        }
        return Seen::Failed;
    }
    if byte == 10 {
        return Seen::Feed;
    }
    Seen::Byte
}

// A byte behind those gathered; what is beyond the buffer takes its last place.
#[tactic(auto, unfolding(crate::specs::Line::place_of, crate::specs::Line::gathered))]
pub fn gather(byte: u8, line: &mut [u8; 256], count: usize) -> usize
    requires { count ≤ 256 }
    ensures line_after { line.new ≡ set line.old (place_of count) byte }
    ensures value { result ≡ gathered count }
    ensures upper_bound { result ≤ 256 }
{
    line[count.min(255)] = byte;
    (count + 1).min(256)
}

// After a line of so many bytes, by what ended it.
#[tactic(auto, unfolding(crate::specs::Line::after_line))]
pub fn after_line(count: usize, seen: Seen) -> Result<(), End>
    ensures { result ≡ after_line count seen }
{
    match seen {
        Seen::Byte | Seen::Feed => Ok(()),
        Seen::Failed => Err(End::Unread),
        Seen::Ended if count == 0 => Err(End::Whole),
        Seen::Ended => Err(End::Inside),
    }
}

// Whether a run of lines is over with this end: a line that is none of the job, or refused, ends nothing but itself.
#[tactic(auto, unfolding(crate::specs::Line::line_over))]
pub fn line_over(end: End) -> bool
    ensures { result ≡ line_over end }
{
    match end {
        End::Whole | End::Inside | End::Unread | End::Unwritten => true,
        End::Stopped(_, _) => false,
        End::BadLine => false,
    }
}
