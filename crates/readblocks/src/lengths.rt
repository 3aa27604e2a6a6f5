// The numbers of the lengths, of a call that reads. 01 "Operations".
// Stays, in this module: buffers stand one by one, since a clause would name one in a struct `cells.now.fac.now` and not `faccells.now`.
ghost use Rattle.std.specs.Prelude.{◌≡◌};
ghost use Rattle.refusal.specs.Numbers.{answer};
ghost use Rattle.superframe.specs.Code.{byte_lengths, cell_lengths};
ghost use Rattle.callrefusals.specs.Clauses.{refusal_then};

use callrefusals::refusals::{accepted_sizes, bytes_long, cells_long, check_lengths};
use channels::Scheme;
use refusal::Refusal;

// 1 to 10: the cells come in, and bytes go out.
// Stays: cells come in (9) and bytes go out (10), in Code the other way round; one function for both would have to be told which.
#[tactic(auto, using(callrefusals::proofs::Chains::then_refused))]
pub fn check_buffers(
    s: Scheme,
    faccells: &[i16],
    sdccells: &[i16],
    msccells: &[i16],
    memory: &[u8],
    fac: &[u8],
    sdc: &[u8],
    msc: &[u8],
) -> Result<(), Refusal>
    ensures { answer result ≡ refusal_then s memory.now
        (cell_lengths s.settings faccells.now sdccells.now msccells.now)
        (byte_lengths s.settings fac.now sdc.now msc.now) 0 }
{
    let z = accepted_sizes(s.settings, &s.table)?;
    let nine = cells_long(z, faccells.len(), sdccells.len(), msccells.len());
    let ten = bytes_long(z, fac.len(), sdc.len(), msc.len());
    check_lengths(z, memory.len(), nine, ten)
}
