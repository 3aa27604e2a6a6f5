// Puncturing patterns: a table of them, and the pattern of a rate. 01 "Component code"; 02 S-11.
#![tactic(auto)]

ghost use Rattle.std.specs.Prelude.{◌≡◌};
ghost use Rattle.patterns.specs.Clauses.{pattern_of, Held};

pub mod table;

// A puncturing pattern: the kept bits of its columns, filled up with zeros, and how many columns it has.
// Stays: no heap, so a pattern has room for eight columns; `columns` lends those that it has.
#[derive(Clone, Copy)]
pub struct Pattern {
    pub columns: [u8; 8],
    pub width: usize,
}

impl Pattern {
    // The columns alone, as a slice.
    #[tactic(auto, using(crate::proofs::Patterns::lent), unfolding(crate::specs::Clauses::pattern_of))]
    pub fn columns(&self) -> &[u8]
        requires { Held self.now }
        ensures { result.now ≡ pattern_of self.now }
    {
        &self.columns[..self.width]
    }
}
