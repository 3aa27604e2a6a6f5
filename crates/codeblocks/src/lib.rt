// The blocks of a Code call to their cells. 01 "Operations".
#![tactic(auto)]

pub mod blocks;
