// Refusals 13 and 14 of Read: the tests of a call's blocks, and the lowest block at fault. 01 "Operations".
#![tactic(auto)]

pub mod lowest;
