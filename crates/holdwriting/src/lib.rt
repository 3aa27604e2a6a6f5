// Memory written as the lines of a hold file. 02, S-7.
#![tactic(auto)]

pub mod writing;
