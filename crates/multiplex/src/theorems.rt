// The theorems of 02, S-8, on one frame: the function is empty and promises the statement.
ghost use Rattle.multiplex.specs.Theorems.{Multiplex};

// Splitting is one-to-one and onto, building and reading go by it, what is built reads back, and what reads is built again.
pub fn multiplex()
    ensures { Multiplex }
{}
