// Theorems about the definitions that the contracts of storing, restoring and turning cite: each function is empty and promises its statement.
ghost use Rattle.holdcalls.specs.Held.{StoredAndRestored};
ghost use Rattle.holdcalls.specs.HeldRuns.{HeldRuns};

// S-7: what is stored, turned and restored.
pub fn stored_and_restored()
    ensures { StoredAndRestored }
{}

// S-7: runs that are stored and restored go on as if they had not been interrupted.
pub fn held_runs()
    ensures { HeldRuns }
{}
