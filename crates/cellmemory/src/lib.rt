// Rows of MSC cells, the fillers after them, and a working buffer for memory.
#![tactic(auto)]

pub mod buffers;
pub mod fillers;
pub mod rows;
