// The theorem of 02, S-11, about the blocks of every table that passes: the function is empty and promises the statement.
#![tactic(auto)]

ghost use Rattle.everytable.specs.EveryTable.{EveryTable};

// The standard's table passes, and with every table that does the coded bits number what the lengths say.
pub fn every_table()
    ensures { EveryTable }
{}
