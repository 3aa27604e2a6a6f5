// The refusals of a job before its call.
ghost use Rattle.std.specs.Prelude.{◌≡◌, Ok, IfOk};
ghost use Rattle.refusal.specs.Numbers.{answer};
ghost use Rattle.settings.specs.Sizes.{sizes_of, sizes_yield};
ghost use Rattle.jobs.specs.SuperFrame.{job_refusal};

use crate::sizes::{grid_length, input_length, output_length};
use callrefusals::refusals::{accepted_sizes, check_lengths};
use console::Job;
use refusal::Refusal;
use settings::Sizes;
use superframe::State;

// 1 to 10: an input of a super frame's length, and an output with room. Otherwise the sizes of the settings.
pub fn check_job(
    job: Job,
    state: State,
    bytes: &[u8],
    memory: &[u8],
    out: &[u8],
) -> Result<Sizes, Refusal>
    ensures refused { answer result ≡ job_refusal job state memory.now bytes.now out.now }
    ensures sizes { IfOk result (λ z. sizes_yield (Ok z) ≡ sizes_of state.scheme.settings) }
{
    let s = state.scheme.settings;
    let z = accepted_sizes(s, &state.scheme.table)?;
    let grid = grid_length(s);
    check_lengths(
        z,
        memory.len(),
        bytes.len() == input_length(job, z, grid),
        output_length(job, z, grid) <= out.len(),
    )?;
    Ok(z)
}
