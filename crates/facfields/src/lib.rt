// The calls that build an FAC block from its fields and read one. 02, S-1; 001 clauses 6.3.3 to 6.3.5 and annex D.
#![tactic(auto)]

pub mod calls;
pub mod theorems;
