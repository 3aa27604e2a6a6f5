// The block nearest to received bits: a search over all blocks of a length. 02, S-9.
#![tactic(auto)]

pub mod fac;
pub mod search;
pub mod theorems;
pub mod values;
