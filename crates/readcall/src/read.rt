// The call Read. 01 "Buffers and state" and "Operations".
// Stays, in this module: buffers stand one by one; with a struct of `&mut` a clause must also say that each reference is still the same one, and in
// `check_order`, which only reads, a clause would name one `lent.fac.now` and not `fac.now`, and `read` would make that struct for one call.
ghost use Rattle.std.specs.Prelude.{◌≡◌};
ghost use Rattle.refusal.specs.Numbers.{answer};
ghost use Rattle.superframe.specs.Answers.{read_done};
ghost use Rattle.superframe.specs.Read.{order_refusal, read_of};
ghost use Rattle.superframe.specs.Clauses.{read_call, read_yield};
ghost use Rattle.readcall.specs.Clauses.{ReadPasses};

use block::buffers::{MOST_MSC_BYTES, MOST_SDC_BYTES};
use callrefusals::refusals::in_order;
use cellmemory::buffers::memory_buffer;
use faults::lowest::{lost_fault, point_fault};
use lists::buffers::buffer;
use partlengths::tables::FAC_BYTES;
use readblocks::lengths::check_buffers;
use readblocks::places::read_blocks;
use refusal::Refusal;
use superframe::{Finished, ReadRefusal, State};

// 1 to 10, and 12.
#[tactic(auto, using(crate::proofs::ReadParts::order_early))]
fn check_order(
    state: State,
    faccells: &[i16],
    sdccells: &[i16],
    msccells: &[i16],
    memory: &[u8],
    fac: &[u8],
    sdc: &[u8],
    msc: &[u8],
) -> Result<(), Refusal>
    ensures { answer result ≡ order_refusal state memory.now
        (read_call faccells.now sdccells.now msccells.now fac.now sdc.now msc.now) }
{
    let s = state.scheme;
    check_buffers(s, faccells, sdccells, msccells, memory, fac, sdc, msc)?;
    if !in_order(state, false, memory) {
        return Err(Refusal::Order);
    }
    Ok(())
}

// A call that no number up to 13 refuses: all blocks are read first, on a copy of memory and into buffers; then 14, or everything is handed out.
fn read_whole(
    state: State,
    faccells: &[i16],
    sdccells: &[i16],
    msccells: &[i16],
    memory: &mut [u8],
    fac: &mut [u8],
    sdc: &mut [u8],
    msc: &mut [u8],
) -> Result<Finished, ReadRefusal>
    requires { ReadPasses state memory.old (read_call faccells.now sdccells.now msccells.now fac.old sdc.old msc.old) }
    ensures { read_yield (read_done state result) memory.new fac.new sdc.new msc.new
        ≡ read_of state memory.old
        (read_call faccells.now sdccells.now msccells.now fac.old sdc.old msc.old) }
{
    let mut work = memory_buffer();
    let mut facwork: [u8; 3 * FAC_BYTES] = buffer(0);
    let mut sdcwork: [u8; MOST_SDC_BYTES] = buffer(0);
    let mut mscwork: [u8; MOST_MSC_BYTES] = buffer(0);
    let n = memory.len();
    let b = sdc.len();
    let m = msc.len();
    work[0..n].copy_from_slice(memory);
    let blocks = read_blocks(
        state,
        faccells,
        sdccells,
        msccells,
        &mut work[0..n],
        &mut facwork,
        &mut sdcwork[0..b],
        &mut mscwork[0..m],
    );
    if let Some(block) = lost_fault(blocks.given) {
        return Err(ReadRefusal {
            refusal: Refusal::Block,
            block,
        });
    }
    memory.copy_from_slice(&work[0..n]);
    fac.copy_from_slice(&facwork);
    sdc.copy_from_slice(&sdcwork[0..b]);
    msc.copy_from_slice(&mscwork[0..m]);
    Ok(Finished {
        frames: blocks.finished,
        state: blocks.after,
    })
}

// The cells of a super frame to three FAC blocks, an SDC block and the multiplex frames that it finishes; a refusal leaves everything as it was.
#[tactic(auto, using(crate::proofs::ReadParts::refused_order))]
pub fn read(
    state: State,
    faccells: &[i16],
    sdccells: &[i16],
    msccells: &[i16],
    memory: &mut [u8],
    fac: &mut [u8],
    sdc: &mut [u8],
    msc: &mut [u8],
) -> Result<Finished, ReadRefusal>
    ensures { read_yield (read_done state result) memory.new fac.new sdc.new msc.new
        ≡ read_of state memory.old
        (read_call faccells.now sdccells.now msccells.now fac.old sdc.old msc.old) }
{
    check_order(state, faccells, sdccells, msccells, memory, fac, sdc, msc)?;
    let s = state.scheme;
    let fault = point_fault(s, state.count as usize, faccells, sdccells, msccells);
    if let Some(block) = fault {
        return Err(ReadRefusal {
            refusal: Refusal::Cell,
            block,
        });
    }
    read_whole(state, faccells, sdccells, msccells, memory, fac, sdc, msc)
}
