// The bits of a segment from its coded ones.
#![tactic(auto)]

pub mod segment;
