// The calls on hold files with states and settings as the bytes that a caller lends. 02, S-7.
#![tactic(auto)]

pub mod holds;
pub mod numbered;
pub mod restores;
