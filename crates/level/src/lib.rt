// One level of a block: coded into labels and read from them.
#![tactic(auto)]

pub mod code;
pub mod read;
