// What a job writes after reading, for a caller outside that has the refusal as a byte. Nothing here calls it.
// Stays, in this module: buffers stand one by one, since a clause would name one in a struct `cells.now.fac.now` and not `fac.now`.
ghost use Rattle.std.specs.Prelude.{◌≡◌, ℕ, ◌+◌, ◌≤◌, List, length, IfOk};
ghost use Rattle.superframe.specs.Clauses.{read_yield};
ghost use Rattle.jobs.specs.SuperFrame.{job_yield, read_written};
ghost use Rattle.jobs.specs.Numbered.{numbered_reading};

use crate::{Step, written};
use superframe::{Finished, State};
use turns::Failure;

// What the output is after reading, by the number of finished frames, or the number of a refusal and its block: what tells of lost blocks, FAC, SDC and those
// frames, or nothing where the call was refused.
// Stays: docs/PROMISES.md names this function; a type for slices that have room would ask of a caller to make it.
pub fn write_read(
    reading: Result<u8, (u8, u8)>,
    state: State,
    lost: &[u8],
    fac: &[u8],
    sdc: &[u8],
    msc: &[u8],
    out: &mut [u8],
) -> Step
    requires { length lost.now + length fac.now + length sdc.now + 1 + length msc.now ≤ length out.old }
    ensures by_index { (memory : List ℕ) → job_yield result memory out.new
        ≡ read_written (numbered_reading reading state).answer lost.now
        (read_yield (numbered_reading reading state) memory fac.now sdc.now msc.now) out.old }
    ensures length_in_bounds { IfOk result.made (λ n. n ≤ length out.old) }
{
    match reading {
        Ok(frames) => {
            let read = Finished { frames, state };
            written::write_read(Ok(read), state, lost, fac, sdc, msc, out)
        }
        Err((number, block)) => Step {
            made: Err(Failure::Refused(number, block)),
            state,
        },
    }
}
