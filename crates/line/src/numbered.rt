// The line of an answer whose refusal is a number, for a caller outside that has it as a byte: one that no refusal has is printed too. Nothing here calls it.
ghost use Rattle.std.specs.Prelude.{◌≡◌, length};
ghost use Rattle.std.proofs.lemmas.List.Edits.{sets};
ghost use Rattle.line.specs.Numbered.{numbered_yield};
ghost use Rattle.line.specs.Written.{written};

use crate::write;
use settings::Lengths;

// The lengths, or for a refusal its number in decimal: 0 is acceptance, and every other number refuses. Beside a refusal the lengths count for nothing.
// Stays: the refusal is a byte, since a Result has no Err for a number that is no refusal's.
#[tactic(auto, unfolding(crate::specs::Written::written))]
pub fn print(refusal: u8, lengths: Lengths, out: &mut [u8; 32]) -> usize
    ensures out_after { out.new ≡ sets out.old 0 (written (numbered_yield refusal lengths)) }
    ensures value { result ≡ length (written (numbered_yield refusal lengths)) }
{
    match refusal {
        0 => write::print(Ok(lengths), out),
        number => write::put_decimal(number, out),
    }
}
