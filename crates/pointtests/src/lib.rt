// The one test of points: FAC and SDC cells, sent rows (refusal 13) and memory (refusal 12). 01 "Operations".
#![tactic(auto)]

use block::Constellation;

pub mod numbered;
pub mod tests;

// A test of cells: which constellation they must be of, the depth and the count by which cells are ignored, and whether (0, 0) passes too.
#[derive(Clone, Copy)]
pub struct PointTest {
    pub constellation: Constellation,
    pub depth: usize,
    pub count: usize,
    pub blank: bool,
}
