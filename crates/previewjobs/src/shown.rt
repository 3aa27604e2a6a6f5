// What `preview` shows. 02, S-3.
// Stays, in this module: buffers stand one by one; with a struct of `&mut` a clause must also say that each reference is still the same one.
ghost use Rattle.std.specs.Prelude.{◌≡◌, ◌≤◌, length, IfOk};
ghost use Rattle.turns.specs.Yield.{made_yield};
ghost use Rattle.jobs.specs.SuperFrame.{job_yield, job_of};
ghost use Rattle.previewjobs.specs.Shown.{shown_of, copy_after};

use codejobs::code::code_bytes;
use console::Job;
use jobs::Step;
use jobs::refusals::check_job;
use jobs::written::refused;
use superframe::State;
use turns::Failure;

// As the job `code`.
fn code_step(state: State, bytes: &[u8], memory: &mut [u8], out: &mut [u8]) -> Step
    ensures out_after { job_yield result memory.new out.new
        ≡ job_of Job.Code state memory.old bytes.now out.old }
    ensures length_in_bounds { IfOk result.made (λ n. n ≤ length out.old) }
{
    match check_job(Job::Code, state, bytes, memory, out) {
        Ok(z) => code_bytes(state, z, bytes, memory, out),
        Err(refusal) => refused(refusal, state),
    }
}

// The cells of one super frame; memory is a working copy, restored from a file that is not written, and is left as Code leaves it.
pub fn show(state: State, bytes: &[u8], memory: &mut [u8], out: &mut [u8]) -> Result<usize, Failure>
    ensures out_after { made_yield result out.new ≡ shown_of state memory.old bytes.now out.old }
    ensures memory_after { memory.new ≡ copy_after state memory.old bytes.now out.old }
    ensures length_in_bounds { IfOk result (λ n. n ≤ length out.old) }
{
    code_step(state, bytes, memory, out).made
}
