// What the desk's program says: every byte of it.
#![tactic(auto)]

pub mod report;
pub mod text;
pub mod texts;

// What a run is counted by.
#[derive(Clone, Copy)]
pub enum Counted {
    SuperFrame,
    MultiplexFrame,
    Line,
}
