// A super frame of a job: bytes in, bytes out.
// Stays, in this module: `Lent` ties `state`, `z` and `bytes` to the room of `out`, so that a struct of the three would keep that clause at each function;
// `memory` and `out` are lent to be written, and a clause on a struct of `&mut` must also say that each reference is still the same one.
ghost use Rattle.std.specs.Prelude.{◌≡◌, ◌≤◌, length, IfOk, Ok};
ghost use Rattle.settings.specs.Sizes.{sizes_yield};
ghost use Rattle.jobs.specs.Clauses.{Lent, read_job};
ghost use Rattle.jobs.specs.SuperFrame.{job_yield, job_call, job_of, reads_on};

use block::buffers::{MOST_MSC_BYTES, MOST_SDC_BYTES};
use codejobs::code::code_bytes;
use console::Job;
use gridjobs::grids::{place_bytes, take_bytes};
use jobs::buffers::numbers_in;
use jobs::refusals::check_job;
use jobs::sizes::{FAC_CELLS_LENGTH, FAC_LENGTH, LOST_BYTES};
use jobs::written::{refused, write_read};
use jobs::{Step, buffers};
use readcall::read::read;
use readoncall::read::read_on;
use settings::Sizes;
use superframe::State;

// Whether a job counts what is lost.
#[tactic(auto, unfolding(jobs::specs::SuperFrame::reads_on))]
pub fn reads_on(job: Job) -> bool
    ensures { result ≡ reads_on job }
{
    matches!(job, Job::ReadOn)
}

// The jobs `read` and, 02 S-13, `read-on` on buffers of the right lengths.
fn read_bytes(
    on: bool,
    state: State,
    z: Sizes,
    bytes: &[u8],
    memory: &mut [u8],
    out: &mut [u8],
) -> Step
    requires { Lent (read_job on) state (sizes_yield (Ok z)) bytes.now out.old }
    ensures out_after { job_yield result memory.new out.new
        ≡ job_call (read_job on) state memory.old bytes.now out.old }
    ensures length_in_bounds { IfOk result.made (λ n. n ≤ length out.old) }
{
    let numbers = numbers_in(bytes);
    let (first, rest) = numbers[0..bytes.len() / 2].split_at(FAC_CELLS_LENGTH);
    let (second, third) = rest.split_at(z.sdcnumbers as usize);
    let mut fac = buffers::bytes::<FAC_LENGTH>();
    let mut most_sdc = buffers::bytes::<MOST_SDC_BYTES>();
    let mut most_msc = buffers::bytes::<MOST_MSC_BYTES>();
    let sdc = &mut most_sdc[0..z.sdcbytes as usize];
    let msc = &mut most_msc[0..z.mscbytes as usize];
    if on {
        let mut lost = [0u8; LOST_BYTES];
        let reading = read_on(
            state, first, second, third, memory, &mut fac, sdc, msc, &mut lost,
        );
        return write_read(reading, state, &lost, &fac, sdc, msc, out);
    }
    let reading = read(state, first, second, third, memory, &mut fac, sdc, msc);
    write_read(reading, state, b"", &fac, sdc, msc, out)
}

// A super frame of a job: its bytes come in, and what is to be written stands first in the output; a refusal leaves everything as it was.
#[tactic(auto, using(jobs::proofs::JobRefusals::job_called))]
pub fn step(job: Job, state: State, bytes: &[u8], memory: &mut [u8], out: &mut [u8]) -> Step
    ensures out_after { job_yield result memory.new out.new ≡ job_of job state memory.old bytes.now out.old }
    ensures length_in_bounds { IfOk result.made (λ n. n ≤ length out.old) }
{
    let z = match check_job(job, state, bytes, memory, out) {
        Ok(z) => z,
        Err(refusal) => return refused(refusal, state),
    };
    // Stays: the job comes from the command line as a value, and each of its functions is lent what it needs.
    match job {
        Job::Code => code_bytes(state, z, bytes, memory, out),
        Job::Read => read_bytes(false, state, z, bytes, memory, out),
        Job::ReadOn => read_bytes(true, state, z, bytes, memory, out),
        Job::Grid => place_bytes(state, z, bytes, out),
        Job::Ungrid => take_bytes(state, z, bytes, out),
    }
}
