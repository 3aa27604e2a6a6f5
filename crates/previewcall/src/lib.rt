// The call preview: what Code would give, on a copy of the memory. 02 S-3.
// Stays, in this module: buffers stand one by one; with a struct of `&mut` a clause must also say that each reference is still the same one.
#![tactic(auto)]

ghost use Rattle.std.specs.Prelude.{◌≡◌};
ghost use Rattle.previewcall.specs.Preview.{preview_of};
ghost use Rattle.superframe.specs.Answers.{done};
ghost use Rattle.superframe.specs.Clauses.{code_call};
ghost use Rattle.previewcall.specs.RunsWithPreviews.{RunsWithPreviews};
ghost use Rattle.previewcall.specs.Clauses.{preview_yield};

use cellmemory::buffers::memory_buffer;
use codecall::code::{check_code, code_accepted};
use refusal::Refusal;
use superframe::State;

// The cells of the next super frame and the state after it, as Code would give them; memory is read only. A refusal leaves the outputs as they were.
#[tactic(auto, using(crate::proofs::Previews::refused_preview))]
pub fn preview(
    state: State,
    fac: &[u8],
    sdc: &[u8],
    msc: &[u8],
    memory: &[u8],
    faccells: &mut [i16],
    sdccells: &mut [i16],
    msccells: &mut [i16],
) -> Result<State, Refusal>
    ensures { preview_yield (done state result) faccells.new sdccells.new msccells.new
        ≡ preview_of state memory.now
        (code_call fac.now sdc.now msc.now faccells.old sdccells.old msccells.old) }
{
    check_code(state, fac, sdc, msc, memory, faccells, sdccells, msccells)?;
    let mut work = memory_buffer();
    let held = &mut work[0..memory.len()];
    held.copy_from_slice(memory);
    let after = code_accepted(state, fac, sdc, msc, held, faccells, sdccells, msccells);
    Ok(after)
}

// The theorem on whole lists of calls: a run with previews in between sends the cells of the same run without them.
pub fn runs_with_previews()
    ensures { RunsWithPreviews }
{}
