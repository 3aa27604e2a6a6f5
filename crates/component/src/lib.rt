// The component code of a segment, bit by bit.
#![tactic(auto)]

pub mod code;
