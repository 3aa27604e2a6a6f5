// The desk's jobs on super frames: their lengths and buffers, the refusals before a call, and what is written after it.
#![tactic(auto)]

pub mod buffers;
pub mod numbered;
pub mod output;
pub mod refusals;
pub mod sizes;
pub mod written;

use superframe::State;
use turns::Failure;

// What a job makes of a super frame: how many bytes are to be written, or why none are, and the state after it.
#[derive(Clone, Copy)]
pub struct Step {
    pub made: Result<usize, Failure>,
    pub state: State,
}
