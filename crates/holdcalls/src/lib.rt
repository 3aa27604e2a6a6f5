// The calls that store state and memory in a hold file and restore them. 02, S-7.
#![tactic(auto)]

pub mod restore;
pub mod store;
pub mod theorems;
