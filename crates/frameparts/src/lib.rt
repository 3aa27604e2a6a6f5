// The parts of a multiplex frame: logical frames of streams laid into parts A and B and taken out of them, and bits of bytes. 02, S-8; 001 clause 6.2.3.
#![tactic(auto)]

pub mod bits;
pub mod parts;

// What a stream, or all of them together, has in part A and in part B.
#[derive(Clone, Copy)]
pub struct Share {
    pub a: usize,
    pub b: usize,
}
