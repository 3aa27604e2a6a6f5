// A multiplex frame of a job: bytes in, bytes out.
// Stays, in this module: buffers stand one by one, since a clause would name one in a struct `run.now.bytes.now` and not `bytes.now`.
ghost use Rattle.std.specs.Prelude.{◌≡◌, ◌≤◌, IfOk, length};
ghost use Rattle.turns.specs.Yield.{made_yield};
ghost use Rattle.multiplex.specs.Clauses.{Fitting};
ghost use Rattle.muxjobs.specs.Frames.{taking, planned, plan_of, plan_yield, frame_of};
ghost use Rattle.muxjobs.specs.Clauses.{Room};

use crate::Plan;
use console::{MuxJob, NotStarted};
use multiplex::Layout;
use multiplex::calls::{build, read};
use multiplex::description::{described, fits, layout};
use refusal::Refusal;
use settings::Settings;
use settings::answers::bytes_for;
use settings::refusals::check;
use turns::Failure;

// A run that takes streams of so many bytes: none where they have no byte, since it would never end.
#[tactic(auto, unfolding(crate::specs::Frames::taking, crate::specs::Frames::stopped))]
fn taking(streams: usize, frame: usize) -> Result<Plan, NotStarted>
    requires streams_bound { streams ≤ 4589 }
    requires frame_bound { frame ≤ 4589 }
    ensures value { plan_yield result ≡ taking streams frame }
    ensures room { IfOk result Room }
{
    if streams == 0 {
        return Err(NotStarted::Usage);
    }
    Ok(Plan {
        input: streams,
        output: frame,
    })
}

// A run with a description that fits.
#[tactic(auto, using(crate::proofs::Told::frame_room, crate::proofs::Told::streams_room), unfolding(crate::specs::Frames::planned, multiplex::specs::Description::stream_bytes))]
fn planned(job: MuxJob, l: Layout) -> Result<Plan, NotStarted>
    requires { Fitting l }
    ensures value { plan_yield result ≡ planned job l }
    ensures room { IfOk result Room }
{
    let streams = l.head + (l.a + l.b);
    let frame = bytes_for(l.vspp + l.rest);
    // Stays: the job comes from the command line as a value, so what it does is found by a `match`.
    match job {
        MuxJob::Mux => taking(streams, frame),
        MuxJob::Demux => Ok(Plan {
            input: frame,
            output: streams,
        }),
    }
}

// How a run begins with settings and a description.
#[tactic(auto, using(multiplex::proofs::Layouts::fitting, refusal::proofs::Positive::number_positive), unfolding(crate::specs::Frames::plan_of, crate::specs::Frames::stopped))]
pub fn plan(job: MuxJob, s: Settings, description: &[u16]) -> Result<Plan, NotStarted>
    ensures value { plan_yield result ≡ plan_of job s description.now }
    ensures room { IfOk result Room }
{
    if !described(description.len()) {
        return Err(NotStarted::Usage);
    }
    check(s)?;
    let l = layout(s, description);
    if !fits(l, s.x) {
        return Err(NotStarted::Refused(Refusal::StreamParts));
    }
    planned(job, l)
}

// A multiplex frame of a job: its bytes come in, and the whole output is to be written; a refusal leaves it as it was.
pub fn frame(
    job: MuxJob,
    s: Settings,
    description: &[u16],
    bytes: &[u8],
    out: &mut [u8],
) -> Result<usize, Failure>
    ensures out_after { made_yield result out.new ≡ frame_of job s description.now bytes.now out.old }
    ensures length_bound { IfOk result (λ n. n ≤ length out.old) }
{
    // Stays: the job comes from the command line as a value, so what it does is found by a `match`.
    match job {
        MuxJob::Mux => build(s, description, bytes, out)?,
        MuxJob::Demux => read(s, description, bytes, out)?,
    }
    Ok(out.len())
}
