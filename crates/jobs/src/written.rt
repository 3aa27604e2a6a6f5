// What the jobs write after a call, and the step that follows.
// Stays, in this module: buffers stand one by one, since a clause would name one in a struct `cells.now.fac.now` and not `fac.now`.
ghost use Rattle.std.specs.Prelude.{◌≡◌, ℕ, ◌+◌, ◌*◌, ◌≤◌, List, length, IfOk};
ghost use Rattle.refusal.specs.Numbers.{number};
ghost use Rattle.superframe.specs.Answers.{done, read_done};
ghost use Rattle.superframe.specs.Clauses.{read_yield};
ghost use Rattle.jobs.specs.SuperFrame.{job_yield, answered, refused as SuperFrame·refused, read_written};
ghost use Rattle.jobs.specs.Output.{cell_output};

use crate::Step;
use crate::output::{join_blocks, join_cells};
use refusal::Refusal;
use superframe::{Finished, ReadRefusal, State};
use turns::Failure;

// Nothing is written where a call was refused.
#[tactic(auto, unfolding(crate::specs::SuperFrame::refused))]
pub fn refused(refusal: Refusal, state: State) -> Step
    ensures by_index { (memory : List ℕ) (out : List ℕ) → job_yield result memory out ≡ SuperFrame·refused (number refusal) 0 state memory out }
    ensures nothing_written { result.made ≡ Err (Failure.Refused (number refusal) 0) }
{
    Step {
        made: Err(refusal.into()),
        state,
    }
}

// What the output is after Code and after taking: the bytes of the cells, or nothing where the call was refused, which leaves the old state.
// Stays: that the room is enough is known of all four slices together; a type for it would hold them, `&mut` of the output among them.
pub fn write_cells(
    called: Result<State, Refusal>,
    old: State,
    fac: &[i16],
    sdc: &[i16],
    msc: &[i16],
    out: &mut [u8],
) -> Step
    requires { 2 * length fac.now + 2 * length sdc.now + 2 * length msc.now ≤ length out.old }
    ensures by_index { (memory : List ℕ) → job_yield result memory out.new
        ≡ answered (done old called).refusal (done old called).state memory (cell_output fac.now sdc.now msc.now) out.old }
    ensures length_in_bounds { IfOk result.made (λ n. n ≤ length out.old) }
{
    match called {
        Ok(state) => Step {
            made: Ok(join_cells(fac, sdc, msc, out)),
            state,
        },
        Err(refusal) => refused(refusal, old),
    }
}

// What the output is after reading: what tells of lost blocks, FAC, SDC and the finished frames, or nothing where the call was refused, which leaves the
// old state.
// Stays: docs/PROMISES.md names this function; a type for slices that have room would ask of a caller to make it.
pub fn write_read(
    read: Result<Finished, ReadRefusal>,
    old: State,
    lost: &[u8],
    fac: &[u8],
    sdc: &[u8],
    msc: &[u8],
    out: &mut [u8],
) -> Step
    requires { length lost.now + length fac.now + length sdc.now + 1 + length msc.now ≤ length out.old }
    ensures by_index { (memory : List ℕ) → job_yield result memory out.new
        ≡ read_written (read_done old read).answer lost.now
        (read_yield (read_done old read) memory fac.now sdc.now msc.now) out.old }
    ensures length_in_bounds { IfOk result.made (λ n. n ≤ length out.old) }
{
    match read {
        Ok(Finished { frames, state }) => Step {
            made: Ok(join_blocks(lost, fac, sdc, frames, msc, out)),
            state,
        },
        Err(refused) => Step {
            made: Err(Failure::Refused(refused.refusal.number(), refused.block)),
            state: old,
        },
    }
}
