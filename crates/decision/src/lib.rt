// A measured cell decided to its point and its bits. 02, S-10.
#![tactic(auto)]

pub mod axis;
pub mod cells;

// A measured pair: a real and an imaginary float.
#[derive(Clone, Copy)]
pub struct Measured {
    pub real: f32,
    pub imaginary: f32,
}

// A measured cell: either a pair, or a fade that carries only its gain.
// Stays: a fade is no failure and has a gain of its own; the definitions in `decision` Cells name both variants.
#[derive(Clone, Copy)]
pub enum MeasuredCell {
    Pair(Measured),
    Fade(f32),
}
