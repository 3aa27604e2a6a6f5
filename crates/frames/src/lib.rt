// The rows of a Read call, and the frames that they finish.
#![tactic(auto)]

use superframe::State;

pub mod read;

// Of the frames that a call's rows finish: whether bits give each, true in a place without a frame, and how many they are; and the state after the rows.
#[derive(Clone, Copy)]
pub struct Frames {
    pub given: [bool; 3],
    pub finished: u8,
    pub after: State,
}
