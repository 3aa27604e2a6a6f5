// What follows from a read and a write of the desk's program.
#![tactic(auto)]

pub mod answers;
pub mod input;
pub mod turn;

// Why a super frame, a multiplex frame or a line did not go through: refused with the number and the block, or no line of the job.
// Stays: docs/PROMISES.md promises the `End` from a `Failure` for any number, so that a `Refusal` here would ask more.
#[derive(Clone, Copy)]
pub enum Failure {
    Refused(u8, u8),
    Bad,
}

// How a run of super frames or a line ends.
#[derive(Clone, Copy)]
pub enum End {
    // The input ended after a whole super frame or line.
    Whole,
    // The input ended inside a super frame or line.
    Inside,
    // A read failed.
    Unread,
    // A write failed.
    Unwritten,
    // A super frame or line was refused: the number and the block.
    // Stays: docs/PROMISES.md names `words::report::report`, which says any number, so that a `Refusal` here would ask more.
    Stopped(u8, u8),
    // No line of the job.
    BadLine,
}

// What a read of one byte found: a byte of the line, its line feed, the end of the input, or a failure.
#[derive(Clone, Copy, PartialEq, Eq)]
pub enum Seen {
    Byte,
    Feed,
    Ended,
    Failed,
}
