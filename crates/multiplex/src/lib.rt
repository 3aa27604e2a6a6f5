// Logical frames of streams built into a multiplex frame, and a multiplex frame split into them again. 02, S-8; 001 clauses 6.2.3 and 6.4.3.1.
#![tactic(auto)]

pub mod bits;
pub mod calls;
pub mod description;
pub mod theorems;

// What settings and a multiplex description give a frame.
#[derive(Clone, Copy)]
pub struct Layout {
    // bits of the VSPP and of what comes after it
    pub vspp: usize,
    pub rest: usize,
    // bytes of the hierarchical frame, of all parts A and of all parts B
    pub head: usize,
    pub a: usize,
    pub b: usize,
}
