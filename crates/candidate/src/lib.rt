// A block's candidate, packed, from its cells, and whether it stays. 01 "Operations".
#![tactic(auto)]

pub mod kept;
pub mod read;
