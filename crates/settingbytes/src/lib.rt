// Settings as the ten bytes that a caller lends, and numbers that answer them.
#![tactic(auto)]

pub mod bytes;
pub mod numbered;
pub mod numbers;
