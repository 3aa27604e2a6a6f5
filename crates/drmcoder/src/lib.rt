// The C interface. Settings are ten bytes, a state is those ten, position, count and the 196 numbers of its table.
#![tactic(auto)]

pub mod bytes;
pub mod calls;
pub mod decide;
pub mod disperse;
pub mod fac;
pub mod grids;
pub mod holds;
pub mod long;
pub mod mux;
pub mod numbers;
pub mod plans;
pub mod preview;
pub mod read_on;
pub mod restores;
