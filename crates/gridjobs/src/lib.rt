// The desk's jobs `grid` and `ungrid`. 02, S-4.
#![tactic(auto)]

pub mod grids;
