// Code of the mapping of level bits to coordinates and back.
#![tactic(auto)]

pub mod points;
