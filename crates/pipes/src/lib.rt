// The desk's pipes: what comes in, and what goes out. Nothing is decided here.
#![tactic(auto)]

pub mod arguments;
pub mod input;
pub mod output;
