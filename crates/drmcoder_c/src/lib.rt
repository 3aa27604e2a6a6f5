// The C interface as a static library: each export calls the function of drmcoder that has its name, and states its clauses.
#![tactic(auto)]

pub mod calls;
pub mod decide;
pub mod disperse;
pub mod fac;
pub mod grids;
pub mod holds;
pub mod long;
pub mod mux;
pub mod numbers;
pub mod plans;
pub mod preview;
pub mod read_on;
pub mod restores;
