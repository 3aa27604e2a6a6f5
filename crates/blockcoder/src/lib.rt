// A block's packed bytes to its cells. 01 "From bits to cells".
#![tactic(auto)]

pub mod code;
pub mod work;
