// The interleaver of clause 7.3.3: its places P(0), P(1), ..
#![tactic(auto)]

pub mod order;
pub mod table;
pub mod theorems;
