// Dispersal: the sequence, bits dispersed by it, and the parts of a frame. 01 "From bits to cells".
#![tactic(auto)]

pub mod bits;
pub mod parts;
pub mod sequence;
