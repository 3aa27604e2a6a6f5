// The call that reads on. 02, S-13.
// Stays, in this module: buffers stand one by one; with a struct of `&mut` a clause must also say that each reference is still the same one.
ghost use Rattle.std.specs.Prelude.{◌≡◌};
ghost use Rattle.refusal.specs.Numbers.{answer};
ghost use Rattle.superframe.specs.Answers.{read_done};
ghost use Rattle.keptcells.specs.ReadOn.{kept_cells, read_on_of};
ghost use Rattle.superframe.specs.Clauses.{Fits, read_call};
ghost use Rattle.readblocks.specs.Clauses.{BlocksLent, BlocksRead};
ghost use Rattle.readoncall.specs.Clauses.{read_on_call, read_on_yield, refusal_after};

use block::buffers::MOST_NUMBERS;
use callrefusals::refusals::in_order;
use keptcells::kept::{keep_cells, mark_lost};
use lists::buffers::buffer;
use readblocks::Blocks;
use readblocks::lengths::check_buffers;
use readblocks::places::read_blocks;
use refusal::Refusal;
use superframe::{Finished, ReadRefusal, State};

// A byte for each of three FAC blocks, the SDC block and three frames.
const LOST_BYTES: usize = 7;

// The most MSC cells of a super frame: three frames and two fillers.
const MOST_MSC_NUMBERS: usize = 3 * MOST_NUMBERS + 4;

// After the lengths of the buffers: 10 for the bytes that tell what is lost, and 12, which lets (0, 0) pass.
#[tactic(auto, unfolding(crate::specs::Clauses::refusal_after, settings::specs::Refusal::first))]
fn check_order(state: State, memory: &[u8], lost: &[u8]) -> Result<(), Refusal>
    requires { Fits state.scheme memory.now }
    ensures { answer result ≡ refusal_after state memory.now lost.now }
{
    if lost.len() != LOST_BYTES {
        return Err(Refusal::OutputLength);
    }
    if !in_order(state, true, memory) {
        return Err(Refusal::Order);
    }
    Ok(())
}

// Every block of a call that no number refuses into its place, over the cells that are kept; a lost one leaves its bytes zero.
fn read_kept(
    state: State,
    faccells: &[i16],
    sdccells: &[i16],
    msccells: &[i16],
    memory: &mut [u8],
    fac: &mut [u8],
    sdc: &mut [u8],
    msc: &mut [u8],
) -> Blocks
    requires { BlocksLent state memory.old (read_call faccells.now sdccells.now msccells.now fac.old sdc.old msc.old) }
    ensures { BlocksRead state memory.old
        (read_call faccells.now sdccells.now (kept_cells state.scheme msccells.now)
        fac.old sdc.old msc.old)
        result memory.new fac.new sdc.new msc.new }
{
    let mut kept: [i16; MOST_MSC_NUMBERS] = buffer(0);
    let n = msccells.len();
    keep_cells(state.scheme, msccells, &mut kept[0..n]);
    read_blocks(
        state,
        faccells,
        sdccells,
        &kept[0..n],
        memory,
        fac,
        sdc,
        msc,
    )
}

// The cells of a super frame to its blocks and the multiplex frames that it finishes, each with its bits or lost; a refusal leaves everything as it was.
#[tactic(auto, using(crate::proofs::OnParts::refused_early, crate::proofs::OnParts::refused_late))]
pub fn read_on(
    state: State,
    faccells: &[i16],
    sdccells: &[i16],
    msccells: &[i16],
    memory: &mut [u8],
    fac: &mut [u8],
    sdc: &mut [u8],
    msc: &mut [u8],
    lost: &mut [u8],
) -> Result<Finished, ReadRefusal>
    ensures { read_on_yield (read_done state result) memory.new fac.new sdc.new msc.new lost.new
        ≡ read_on_of state memory.old
        (read_on_call faccells.now sdccells.now msccells.now
        fac.old sdc.old msc.old lost.old) }
{
    let s = state.scheme;
    check_buffers(s, faccells, sdccells, msccells, memory, fac, sdc, msc)?;
    check_order(state, memory, lost)?;
    let blocks = read_kept(state, faccells, sdccells, msccells, memory, fac, sdc, msc);
    mark_lost(blocks.given, lost);
    Ok(Finished {
        frames: blocks.finished,
        state: blocks.after,
    })
}
