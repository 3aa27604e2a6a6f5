// The refusals that the calls share, and the tests that they rest on. 01 "Operations".
#![tactic(auto)]

pub mod refusals;
