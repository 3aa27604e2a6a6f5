// Super frames: the calls Reset, Code and Read on a state and an interleaving memory.
#![tactic(auto)]

ghost use Rattle.std.specs.Prelude.{◌≡◌};

use channels::Scheme;
use refusal::Refusal;

pub mod theorems;

// 01 "Buffers and state": the settings and the table, the position 0 to 4 of the slot written next, and a count of frames seen that stops at 4.
#[derive(Clone, Copy)]
pub struct State {
    pub scheme: Scheme,
    pub position: u8,
    pub count: u8,
}

// What an accepted Read answers: the number of finished frames, and the state after it.
#[derive(Clone, Copy)]
pub struct Finished {
    pub frames: u8,
    pub state: State,
}

// Why Read is refused, and the block at fault, which is 0 but for blocks and cells.
#[derive(Clone, Copy, Debug, PartialEq, Eq)]
pub struct ReadRefusal {
    pub refusal: Refusal,
    pub block: u8,
}

impl From<Refusal> for ReadRefusal {
    ghost from_gives = { λ refusal e. e ≡ record { refusal = refusal; block = 0 } };

    fn from(refusal: Refusal) -> ReadRefusal {
        ReadRefusal { refusal, block: 0 }
    }
}
