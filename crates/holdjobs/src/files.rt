// A hold file at the start of a buffer: one in its other form, and that of a run.
// Stays, in this module: buffers stand one by one; with a struct of `&mut` a clause must also say that each reference is still the same one.
ghost use Rattle.std.specs.Prelude.{◌≡◌, ◌≤◌, min, length, IfOk, Ok};
ghost use Rattle.holdfile.specs.Convert.{file_sizes_yield};
ghost use Rattle.turns.specs.Yield.{made_yield};
ghost use Rattle.holdjobs.specs.Files.{size_in, file_bytes, turned_of, turn_of, stored_of};

use console::TurnJob;
use holdcalls::store::store;
use holdfile::FileSizes;
use holdfile::convert::{convert, sizes};
use holdlines::Form;
use settings::Settings;
use superframe::State;
use turns::Failure;

// A byte more than the largest file has, so that a longer one is seen.
pub const FILE_BYTES: usize = 244729;

// The bytes of a file of one form.
#[tactic(auto, unfolding(crate::specs::Files::size_in))]
fn size_in(form: Form, z: FileSizes) -> usize
    ensures { result ≡ size_in form (file_sizes_yield (Ok z)) }
{
    // Stays: the job says by its form which of the two lengths is meant, and both stand in `z` as numbers.
    match form {
        Form::Old => z.old as usize,
        Form::New => z.new as usize,
    }
}

// The same of some settings, or all there are where they are fewer.
#[tactic(auto, unfolding(crate::specs::Files::file_bytes, crate::specs::Files::size_in))]
fn file_room(form: Form, s: Settings, all: usize) -> usize
    ensures { result ≡ min all (file_bytes form s) }
{
    sizes(s).map_or(0, |z| size_in(form, z).min(all))
}

// A file of one form in the other.
fn turn_from(
    from: Form,
    to: Form,
    s: Settings,
    file: &[u8],
    out: &mut [u8],
) -> Result<usize, Failure>
    ensures out_after { made_yield result out.new ≡ turned_of from to s file.now out.old }
    ensures length_in_bounds { IfOk result (λ n. n ≤ length out.old) }
{
    let n = file_room(to, s, out.len());
    convert(from, s, file, &mut out[0..n])?;
    Ok(n)
}

// What `to-new` and `to-old` make of a whole input.
#[tactic(auto, unfolding(crate::specs::Files::turn_of))]
pub fn turn_file(job: TurnJob, s: Settings, file: &[u8], out: &mut [u8]) -> Result<usize, Failure>
    ensures out_after { made_yield result out.new ≡ turn_of job s file.now out.old }
    ensures length_in_bounds { IfOk result (λ n. n ≤ length out.old) }
{
    // Stays: the job comes from the command line as a value, so that a `match` says which form it takes and which it gives.
    match job {
        TurnJob::ToNew => turn_from(Form::Old, Form::New, s, file, out),
        TurnJob::ToOld => turn_from(Form::New, Form::Old, s, file, out),
    }
}

// The new file of a run's state and memory.
pub fn store_file(state: State, memory: &[u8], out: &mut [u8]) -> Result<usize, Failure>
    ensures out_after { made_yield result out.new ≡ stored_of state memory.now out.old }
    ensures length_in_bounds { IfOk result (λ n. n ≤ length out.old) }
{
    let s = state.scheme.settings;
    let n = file_room(Form::New, s, out.len());
    store(Form::New, state, memory, &mut out[0..n])?;
    Ok(n)
}
