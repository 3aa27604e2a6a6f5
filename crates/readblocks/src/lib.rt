// What Read and the call that reads on have in common: the numbers of their lengths, and every block read into its own place.
#![tactic(auto)]

use superframe::State;

pub mod lengths;
pub mod places;

// Of all blocks of a call, 0 to 2 FAC, 3 SDC, then the finished frames: whether bits give each, and what `Frames` says.
#[derive(Clone, Copy)]
pub struct Blocks {
    pub given: [bool; 7],
    pub finished: u8,
    pub after: State,
}
