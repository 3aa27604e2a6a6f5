// The call Code. 01 "Buffers and state" and "Operations".
// Stays, in this module: buffers stand one by one; with a struct of `&mut` a clause must also say that each reference is still the same one, and in the
// checks, which only read, a clause would name one `lent.fac.now` and not `fac.now`, and `code` and `preview` would make that struct for one call.
ghost use Rattle.std.specs.Prelude.{◌≡◌, Ok};
ghost use Rattle.refusal.specs.Numbers.{answer};
ghost use Rattle.superframe.specs.Answers.{done};
ghost use Rattle.superframe.specs.Code.{byte_lengths, cell_lengths, code_refusal, code_accepted, code_of};
ghost use Rattle.superframe.specs.Clauses.{CodeFits, code_call, code_yield};
ghost use Rattle.callrefusals.specs.Clauses.{refusal_then};

use blockcoder::code::code_block;
use callrefusals::refusals::{
    accepted_sizes, bytes_long, cells_long, check_lengths, in_order, spares_zero,
};
use channels::Scheme;
use channels::blocks::sdc_block;
use codeblocks::blocks::{code_fac, code_msc};
use refusal::Refusal;
use superframe::State;

// 1 to 10.
#[tactic(auto, using(callrefusals::proofs::Chains::then_refused))]
fn check_buffers(
    s: Scheme,
    fac: &[u8],
    sdc: &[u8],
    msc: &[u8],
    memory: &[u8],
    faccells: &[i16],
    sdccells: &[i16],
    msccells: &[i16],
) -> Result<(), Refusal>
    ensures { answer result ≡ refusal_then s memory.now
        (byte_lengths s.settings fac.now sdc.now msc.now)
        (cell_lengths s.settings faccells.now sdccells.now msccells.now) 0 }
{
    let z = accepted_sizes(s.settings, &s.table)?;
    let nine = bytes_long(z, fac.len(), sdc.len(), msc.len());
    let ten = cells_long(z, faccells.len(), sdccells.len(), msccells.len());
    check_lengths(z, memory.len(), nine, ten)
}

// The refusal of the lowest number that applies.
#[tactic(auto, using(crate::proofs::CodeCalls::code_early))]
pub fn check_code(
    state: State,
    fac: &[u8],
    sdc: &[u8],
    msc: &[u8],
    memory: &[u8],
    faccells: &[i16],
    sdccells: &[i16],
    msccells: &[i16],
) -> Result<(), Refusal>
    ensures { answer result ≡ code_refusal state memory.now
        (code_call fac.now sdc.now msc.now faccells.now sdccells.now msccells.now) }
{
    let s = state.scheme;
    check_buffers(s, fac, sdc, msc, memory, faccells, sdccells, msccells)?;
    if !spares_zero(s.settings, sdc, msc) {
        return Err(Refusal::SpareBit);
    }
    if !in_order(state, false, memory) {
        return Err(Refusal::Order);
    }
    Ok(())
}

// What an accepted call does, and the state after it.
pub fn code_accepted(
    state: State,
    fac: &[u8],
    sdc: &[u8],
    msc: &[u8],
    memory: &mut [u8],
    faccells: &mut [i16],
    sdccells: &mut [i16],
    msccells: &mut [i16],
) -> State
    requires { CodeFits state memory.old (code_call fac.now sdc.now msc.now faccells.old sdccells.old msccells.old) }
    ensures { code_yield (done state (Ok result)) memory.new faccells.new sdccells.new msccells.new
        ≡ code_accepted state memory.old
        (code_call fac.now sdc.now msc.now faccells.old sdccells.old msccells.old) }
{
    code_fac(state.scheme, fac, faccells);
    code_block(sdc_block(state.scheme), sdc, sdccells);
    code_msc(state, msc, memory, msccells)
}

// Three FAC blocks, an SDC block and three multiplex frames to the cells of a super frame, and the state after it; a refusal leaves everything as it was.
#[tactic(auto, using(crate::proofs::CodeCalls::refused_call))]
pub fn code(
    state: State,
    fac: &[u8],
    sdc: &[u8],
    msc: &[u8],
    memory: &mut [u8],
    faccells: &mut [i16],
    sdccells: &mut [i16],
    msccells: &mut [i16],
) -> Result<State, Refusal>
    ensures { code_yield (done state result) memory.new faccells.new sdccells.new msccells.new
        ≡ code_of state memory.old
        (code_call fac.now sdc.now msc.now faccells.old sdccells.old msccells.old) }
{
    check_code(state, fac, sdc, msc, memory, faccells, sdccells, msccells)?;
    let after = code_accepted(state, fac, sdc, msc, memory, faccells, sdccells, msccells);
    Ok(after)
}
