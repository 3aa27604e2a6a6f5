// The lines of a hold file read into memory. 02, S-7.
#![tactic(auto)]

pub mod reading;
