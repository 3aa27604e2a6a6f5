// What comes in: a whole buffer, or a line.
ghost use Rattle.std.specs.Prelude.{◌≡◌, ◌≤◌, false, length, IfOk};
ghost use Rattle.turns.specs.Turn.{after_all};

use std::io::Read;
use std::os::fd::AsRawFd;
use turns::{End, Seen, input, turn};

// Whether a read tells the end of the input, and did not fail.
fn tells_end<R: Read>(from: &mut R, bytes: &mut [u8]) -> bool {
    match from.read(bytes) {
        Ok(n) => n == 0,
        Err(_) => false,
    }
}

// Fills a buffer from standard input; a read after that tells the end of the input from a read that failed.
pub fn fill(rt: HostRuntime, bytes: &mut [u8]) -> Result<(), End> {
    let mut from = rt.stdin();
    let n = io::read_full(from.as_raw_fd(), bytes);
    let ended = tells_end(&mut from, &mut bytes[n..]);
    turn::after_read(n, bytes.len(), ended)
}

// The whole of an input, or what fills the buffer: how many bytes came.
#[tactic(auto, unfolding(turns::specs::Turn::after_all))]
pub fn take_all<R: Read + AsRawFd>(from: &mut R, bytes: &mut [u8]) -> Result<usize, End>
    ensures { IfOk result (λ got. got ≤ length bytes.new) }
{
    let n = io::read_full(from.as_raw_fd(), bytes);
    let ended = tells_end(from, &mut bytes[n..]);
    turn::after_all(n, bytes.len(), ended)
}

// The same of an input that cannot be opened.
pub fn take_none(bytes: &[u8]) -> Result<usize, End>
    ensures { result ≡ after_all 0 (length bytes.now) false }
{
    turn::after_all(0, bytes.len(), false)
}

// A line, of which so many bytes count, and what ended it.
#[derive(Clone, Copy)]
pub struct Gathered {
    pub count: usize,
    pub seen: Seen,
}

// One byte of an input into the line.
fn gather_byte<R: Read>(from: &mut R, line: &mut [u8; 256], count: usize) -> Gathered
    requires { count ≤ 256 }
    ensures { result.count ≤ 256 }
{
    let mut one = [0u8; 1];
    // Stays: docs/PROMISES.md names `input::seen`, which takes the number of bytes and the end one by one; a read that failed has neither.
    let (got, ended) = from.read(&mut one).map_or((0, false), |n| (n, n == 0));
    let seen = input::seen(got, ended, one[0]);
    let count = if seen == Seen::Byte {
        input::gather(one[0], line, count)
    } else {
        count
    };
    Gathered { count, seen }
}

// A line up to its feed, the end of the input or a failure. A loop that is proved to end has a last turn.
pub fn read_line<R: Read>(from: &mut R, line: &mut [u8; 256]) -> Gathered
    ensures { result.count ≤ 256 }
{
    let mut count = 0;
    for _ in 0..u64::MAX {
        let gathered = gather_byte(from, line, count);
        if gathered.seen != Seen::Byte {
            return gathered;
        }
        count = gathered.count;
    }
    Gathered {
        count,
        seen: Seen::Failed,
    }
}
