// The theorem of 02, S-14, over runs: the function is empty and promises the statement.
#![tactic(auto)]

ghost use Rattle.howlongruns.specs.BytesCoded.{BytesCoded};

// The three numbers are those of actually coding that many bytes, and a reader gets every byte back.
#[tactic(auto, using(crate::proofs::Theorem::bytes_coded))]
pub fn bytes_coded()
    ensures { BytesCoded }
{}
