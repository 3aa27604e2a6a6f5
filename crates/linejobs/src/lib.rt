// The desk's jobs on lines: what each makes of a line.
#![tactic(auto)]

pub mod fields;
pub mod received;
pub mod steps;
