// The CRC word of an FAC block. 001 annex D.
#![tactic(auto)]

pub mod word;
