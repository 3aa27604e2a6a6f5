// The packed bytes that give a block's cells, and those of equal blocks one after the other. 01 "Operations".
#![tactic(auto)]

mod lent;
pub mod several;
