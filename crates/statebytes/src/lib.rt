// A state as the 208 bytes that a caller lends, and what a call answers with them.
#![tactic(auto)]

pub mod answers;
pub mod bytes;
pub mod numbered;
