// The theorem of 02, S-5: the function is empty and promises the statement.
#![tactic(auto)]

ghost use Rattle.noemptycells.specs.NoEmptyCells.{NoEmptyCells};

// The cells of a run are points and fillers, none (0, 0), and a reader ignores those of frames before the first.
pub fn no_empty_cells()
    ensures { NoEmptyCells }
{}
