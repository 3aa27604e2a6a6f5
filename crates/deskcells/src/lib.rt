// Cells as bytes: 16-bit two's-complement numbers, low byte first.
#![tactic(auto)]

pub mod numbers;
