// The calls that turn a file into the other form, and the bytes of files. 02, S-7.
// Stays, in this module: buffers stand one by one; with a struct of `&mut` a clause must also say that each reference is still the same one. Form,
// settings and file are three parameters of the calls; a struct of them would be made for one use in each call, and a clause would name `file.bytes.now`.
ghost use Rattle.std.specs.Prelude.{◌≡◌, length};
ghost use Rattle.refusal.specs.Numbers.{answer};
ghost use Rattle.settings.specs.Accepted.{Accepted};
ghost use Rattle.holdlines.specs.Files.{file_of, held_in, file_length};
ghost use Rattle.holdfile.specs.Convert.{other, convert_yield, convert_of, file_sizes_yield, file_sizes_of};
ghost use Rattle.holdfile.specs.Clauses.{Turnable, TurnRoom, Turned};

use crate::FileSizes;
use block::buffers::MOST_CELLS;
use holdlines::Form;
use holdlines::digits::digit_value;
use holdlines::lengths::file_bytes;
use holdreading::reading::take_file;
use holdwriting::writing::put_file;
use lists::buffers::buffer;
use refusal::Refusal;
use settings::refusals::check;
use settings::{Settings, answers};

// The bytes of an old and of a new file.
#[tactic(auto, using(refusal::proofs::Positive::number_positive), unfolding(crate::specs::Convert::file_sizes_of))]
pub fn sizes(s: Settings) -> Result<FileSizes, Refusal>
    ensures { file_sizes_yield result ≡ file_sizes_of s }
{
    check(s)?;
    Ok(FileSizes {
        old: file_bytes(Form::Old, s) as u32,
        new: file_bytes(Form::New, s) as u32,
    })
}

// The other form.
fn other_form(form: Form) -> Form
    ensures { result ≡ other form }
{
    // Stays: the form comes from the command line, or with the name of a C call, as a value, and this is its table.
    match form {
        Form::Old => Form::New,
        Form::New => Form::Old,
    }
}

// The other form of a valid file whose cells stand in memory.
fn put_other(form: Form, s: Settings, file: &[u8], memory: &[u8], out: &mut [u8])
    requires { Turnable form s file.now memory.now out.old }
    ensures { out.new ≡ file_of (other form) s (held_in form s file.now) }
{
    let position = digit_value(file[0]).unwrap_or(0);
    let count = digit_value(file[1]).unwrap_or(0);
    put_file(other_form(form), s, position, count, memory, out);
}

// A file in the other form, by way of memory. Refusal 18.
#[tactic(auto, using(crate::proofs::Turning::kept_room))]
fn turn_in(
    form: Form,
    s: Settings,
    file: &[u8],
    memory: &mut [u8],
    out: &mut [u8],
) -> Result<(), Refusal>
    requires { TurnRoom form s memory.old out.old }
    ensures { Turned form s file.now out.old result out.new }
{
    take_file(form, s, file, memory)?;
    put_other(form, s, file, memory, out);
    Ok(())
}

// Stays: `convert` alone calls this, behind its test; a type for accepted settings would be made there and taken apart for `take_file`.
fn turn_file(form: Form, s: Settings, file: &[u8], out: &mut [u8]) -> Result<(), Refusal>
    requires { Accepted s × (length out.old ≡ file_length (other form) s) }
    ensures { Turned form s file.now out.old result out.new }
{
    let n = answers::memory_bytes(s);
    let mut memory: [u8; 5 * MOST_CELLS] = buffer(0);
    turn_in(form, s, file, &mut memory[0..n], out)
}

// The other form of a file.
#[tactic(auto, using(refusal::proofs::Positive::number_positive), unfolding(crate::specs::Convert::convert_refusal, crate::specs::Convert::convert_of, settings::specs::Refusal::first))]
pub fn convert(form: Form, s: Settings, file: &[u8], out: &mut [u8]) -> Result<(), Refusal>
    ensures { convert_yield (answer result) out.new ≡ convert_of form s file.now out.old }
{
    check(s)?;
    if out.len() != file_bytes(other_form(form), s) {
        return Err(Refusal::OutputLength);
    }
    turn_file(form, s, file, out)
}
