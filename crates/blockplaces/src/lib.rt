// The places of a block's coded bits, made once for all that is coded or read by them. 01 "Bit interleaving".
#![tactic(auto)]

pub mod tables;
