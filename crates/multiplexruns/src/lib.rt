// The theorem of 02, S-8, on closed runs: the function is empty and promises the statement.
#![tactic(auto)]

ghost use Rattle.multiplexruns.specs.SameStreams.{SameStreams};

// Between closed runs streams and fillings are equal exactly when the MSC cells are.
#[tactic(auto, using(crate::proofs::Splits::same_streams))]
pub fn same_streams()
    ensures { SameStreams }
{}
