// Reading on over spoiled cells. 02, S-13.
#![tactic(auto)]

pub mod read;
