// Cells placed on places by their kinds, and taken off them. 02, S-4.
#![tactic(auto)]

pub mod cells;
