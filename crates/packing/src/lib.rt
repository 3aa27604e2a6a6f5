// Packed bytes to bits and back. 01 "Buffers and state".
#![tactic(auto)]

pub mod bits;
