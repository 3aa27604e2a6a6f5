// A super frame of the job `code`.
// Stays, in this module: `Lent` ties `state`, `z` and `bytes` to the room of `out`, so that a struct of the three would keep that clause at each function.
ghost use Rattle.std.specs.Prelude.{◌≡◌, ◌≤◌, length, IfOk, Ok};
ghost use Rattle.settings.specs.Sizes.{sizes_yield};
ghost use Rattle.console.specs.declared.Job.{Job};
ghost use Rattle.jobs.specs.Clauses.{Lent};
ghost use Rattle.jobs.specs.SuperFrame.{job_yield, job_call};

use codecall::code::code;
use jobs::buffers::{MOST_MSC_NUMBERS, MOST_SDC_NUMBERS};
use jobs::sizes::{FAC_CELLS_LENGTH, FAC_LENGTH};
use jobs::written::write_cells;
use jobs::{Step, buffers};
use settings::Sizes;
use superframe::State;

// The job `code` on buffers of the right lengths.
pub fn code_bytes(state: State, z: Sizes, bytes: &[u8], memory: &mut [u8], out: &mut [u8]) -> Step
    requires { Lent Job.Code state (sizes_yield (Ok z)) bytes.now out.old }
    ensures out_after { job_yield result memory.new out.new
        ≡ job_call Job.Code state memory.old bytes.now out.old }
    ensures length_in_bounds { IfOk result.made (λ n. n ≤ length out.old) }
{
    let mut fac = buffers::numbers::<FAC_CELLS_LENGTH>();
    let mut most_sdc = buffers::numbers::<MOST_SDC_NUMBERS>();
    let mut most_msc = buffers::numbers::<MOST_MSC_NUMBERS>();
    let sdc = &mut most_sdc[0..z.sdcnumbers as usize];
    let msc = &mut most_msc[0..z.mscnumbers as usize];
    let (first, rest) = bytes.split_at(FAC_LENGTH);
    let (second, third) = rest.split_at(z.sdcbytes as usize);
    let coded = code(state, first, second, third, memory, &mut fac, sdc, msc);
    write_cells(coded, state, &fac, sdc, msc, out)
}
