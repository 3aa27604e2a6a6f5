// Lists by their places, working buffers, and buffers compared.
#![tactic(auto)]

pub mod buffers;
pub mod numbers;
