// The test of a table of puncturing patterns that was loaded. 02 S-11.
#![tactic(auto)]

pub mod test;
