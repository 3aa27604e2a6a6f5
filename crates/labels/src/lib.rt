// The bits of a level in the labels of a block's cells: interleaved and added with their weight, and taken out again.
#![tactic(auto)]

pub mod bits;
