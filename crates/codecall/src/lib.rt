// The call Code.
#![tactic(auto)]

pub mod code;
