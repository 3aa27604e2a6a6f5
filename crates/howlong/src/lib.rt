// How long a number of bytes takes on air, without coding anything. 02, S-14.
#![tactic(auto)]

pub mod calls;
