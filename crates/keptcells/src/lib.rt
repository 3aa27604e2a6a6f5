// What a reader that reads on keeps of received cells, and tells of blocks. 02, S-13.
#![tactic(auto)]

pub mod kept;
