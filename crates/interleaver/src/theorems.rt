// The interleaver's cycle, for all sizes at once: the function is empty and promises the statement.
ghost use Rattle.interleaver.specs.Cycle.{Cycle};

// 01 "Buyer's note".
pub fn whole_cycle()
    ensures { Cycle }
{}
