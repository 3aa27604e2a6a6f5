// The cells of parts A and B, mapped one part behind the other. 01 "Bit interleaving" and "Mapping".
#![tactic(auto)]

pub mod parts;
