// The cells of frames before the first, and memory filled with them. 02 S-5.
#![tactic(auto)]

pub mod start;
