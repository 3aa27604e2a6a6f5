// The coded bits of a segment.
#![tactic(auto)]

pub mod segment;
