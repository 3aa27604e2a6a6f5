// Bytes in hexadecimal and decimal numbers of a line, read and printed.
#![tactic(auto)]

pub mod digits;
pub mod numbers;
