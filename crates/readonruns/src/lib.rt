// The theorem of 02, S-13, on whole lists of calls: the function is empty and promises the statement.
#![tactic(auto)]

ghost use Rattle.readonruns.specs.OnRuns.{OnRuns};

// What spoiled cells cost a reader that reads on.
pub fn on_runs()
    ensures { OnRuns }
{}
