// A multiplex frame that arrives in two halves. 02, S-6.
#![tactic(auto)]

pub mod calls;
pub mod theorems;
