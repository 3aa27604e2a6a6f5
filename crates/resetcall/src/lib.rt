// The call Reset. 01 "Operations".
#![tactic(auto)]

pub mod reset;
