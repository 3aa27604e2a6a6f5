// Cells, code rates and lengths of the parts: the tables of 001 and the formulas of lengths.
#![tactic(auto)]

pub mod formulas;
pub mod tables;
