// A cell as a byte.
#![tactic(auto)]

pub mod cells;
