// The search through the code's trellis, one layer at a time. 02, S-9.
#![tactic(auto)]

pub mod step;
