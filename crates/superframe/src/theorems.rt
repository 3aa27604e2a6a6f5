// Theorems about the definitions that the contracts of Reset, Code and Read cite: each function is empty and promises its statement.
ghost use Rattle.superframe.specs.SingleCalls.{SingleCalls};
ghost use Rattle.superframe.specs.WholeRuns.{WholeRuns};

// Demand 2: which calls Read refuses by 13 and 14, what it hands out, and what Code's cells are.
pub fn single_calls()
    ensures { SingleCalls }
{}

// Demand 3: one statement about whole lists of calls.
pub fn whole_runs()
    ensures { WholeRuns }
{}
