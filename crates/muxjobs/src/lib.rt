// The desk's jobs on multiplex frames: what each makes of a frame. 02, S-8.
#![tactic(auto)]

pub mod argument;
pub mod steps;

// No multiplex frame of any settings has more bytes, nor have its streams.
pub const MOST_BYTES: usize = 4589;

// The numbers of a description: the first `count` of an array, two for each of one to four streams, and none of them where the word is no description.
// Stays: a `Vec` would take its numbers from the heap, from which this project takes nothing.
#[derive(Clone, Copy)]
pub struct Description {
    pub values: [u16; 8],
    pub count: usize,
}

// The bytes of a frame's input and of its output.
#[derive(Clone, Copy)]
pub struct Plan {
    pub input: usize,
    pub output: usize,
}
