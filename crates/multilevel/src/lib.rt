// Levels of a block: coded into labels and read from them.
#![tactic(auto)]

pub mod code;
pub mod places;
pub mod read;
