// A line of settings, and the line that answers it. 01 "Cases", the lengths program.
#![tactic(auto)]

pub mod numbered;
pub mod read;
pub mod write;
