// A line of a job.
ghost use Rattle.std.specs.Prelude.{◌≡◌, ℕ, List};
ghost use Rattle.turns.specs.Yield.{text_yield};
ghost use Rattle.linejobs.specs.Lines.{line_of};

use crate::fields::{build_line, read_line};
use crate::received::nearest_line;
use console::LineJob;
use turns::Failure;
use words::text::Text;

// What a job makes of a line without its feed: what is to be written, or why the line does not go through.
#[tactic(auto, unfolding(crate::specs::Lines::line_of))]
pub fn line_step(job: LineJob, line: &[u8]) -> Result<Text, Failure>
    ensures { (out : List ℕ) → text_yield result out ≡ line_of job line.now out }
{
    // Stays: the job comes from the command line as a value, so what it does is found by a `match`.
    match job {
        LineJob::Nearest => nearest_line(line),
        LineJob::FacBuild(s) => build_line(s, line),
        LineJob::FacRead(s) => read_line(s, line),
    }
}
