// What the desk's program makes of hold files. 02, S-7.
#![tactic(auto)]

pub mod asked;
pub mod files;
