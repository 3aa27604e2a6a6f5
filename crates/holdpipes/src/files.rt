// Hold files: turned into the other form, begun from, and stored. 02, S-7.
// Stays, in this module: buffers stand one by one; with a struct of `&mut` a clause must also say that each reference is still the same one.
ghost use Rattle.std.specs.Prelude.{◌≡◌, ◌≤◌, length, IfOk};
ghost use Rattle.channels.specs.Scheme.{standard_scheme};
ghost use Rattle.holdlines.specs.declared.Form.TheVariants.{New};
ghost use Rattle.holdcalls.specs.Restore.{restore_of};
ghost use Rattle.holdpipes.specs.Begun.{begun_yield, blank_state, restored_begun, FromFile, Begins};

use channels::tables::standard_scheme;
use console::TurnJob;
use holdcalls::restore::restore;
use holdjobs::files::FILE_BYTES;
use holdjobs::{asked, files};
use holdlines::Form;
use jobs::buffers;
use pipes::arguments::{argument, argument_count};
use pipes::input::{take_all, take_none};
use pipes::output::{STDOUT_FILENO, say_file};
use resetcall::reset::reset;
use settings::Settings;
use std::fs::File;
use std::os::fd::AsRawFd;
use superframe::State;
use turns::{End, turn};

// A file that has come.
fn pass_file(job: TurnJob, s: Settings, file: &[u8]) -> Result<(), End> {
    let mut out = buffers::bytes::<FILE_BYTES>();
    let made = files::turn_file(job, s, file, &mut out);
    let written = io::write_all(STDOUT_FILENO, &out[..made.unwrap_or(0)]);
    turn::after_write(made, written)
}

// The whole input.
fn pass_input(rt: HostRuntime, job: TurnJob, s: Settings) -> Result<(), End> {
    let mut file = buffers::bytes::<FILE_BYTES>();
    let n = take_all(&mut rt.stdin(), &mut file)?;
    pass_file(job, s, &file[..n])
}

// The job `to-new` or `to-old` on the whole input.
pub fn turn_input(rt: HostRuntime, job: TurnJob, s: Settings) {
    if let Err(end) = pass_input(rt, job, s) {
        say_file(end);
    }
}

// The state of the settings before any call: a run has it where a reset refuses them.
fn blank(s: Settings) -> State
    ensures { result ≡ blank_state s }
{
    State {
        scheme: standard_scheme(s),
        position: 0,
        count: 0,
    }
}

// A run that goes on where a file was stored.
fn restore_file(s: Settings, file: &[u8], memory: &mut [u8]) -> Result<State, End>
    ensures { begun_yield result memory.new
        ≡ restored_begun (restore_of New (blank_state s) (standard_scheme s) file.now memory.old) }
{
    let state = restore(Form::New, s, file, memory)?;
    Ok(state)
}

// The whole of the file of a name. A name that is no text names no file that can be opened.
#[tactic(auto, unfolding(turns::specs::Turn::after_all))]
fn take_file(rt: HostRuntime, path: &[u8], bytes: &mut [u8]) -> Result<usize, End>
    ensures { IfOk result (λ got. got ≤ length bytes.new) }
{
    let Ok(name) = str::from_utf8(path) else {
        return take_none(bytes);
    };
    match File::open(&rt, name) {
        Ok(from) => take_open(from, bytes),
        Err(_) => take_none(bytes),
    }
}

// The same of an open file, which is closed after it.
fn take_open(from: File, bytes: &mut [u8]) -> Result<usize, End>
    ensures { IfOk result (λ got. got ≤ length bytes.new) }
{
    let mut from = from;
    take_all(&mut from, bytes)
}

// From the new hold file of a name: a state to begin from, or what is wrong with the file.
pub fn restore_from(
    rt: HostRuntime,
    path: &[u8],
    s: Settings,
    memory: &mut [u8],
) -> Result<State, End>
    ensures { FromFile s memory.old (begun_yield result memory.new) }
{
    let mut file = buffers::bytes::<FILE_BYTES>();
    let n = take_file(rt, path, &mut file)?;
    restore_file(s, &file[..n], memory)
}

// From a reset, or from the file that the third argument names; settings that a reset refuses are refused at the first super frame too.
pub fn begin_from(rt: HostRuntime, s: Settings, memory: &mut [u8]) -> Result<State, End>
    ensures { Begins s memory.old (begun_yield result memory.new) }
{
    let mut path = io::buffer();
    let n = argument(rt, 3, &mut path);
    if asked::from_reset(argument_count(rt), &path[..n]) {
        return Ok(reset(s, memory).unwrap_or(blank(s)));
    }
    restore_from(rt, &path[..n], s, memory)
}

// Whether a file keeps what was written to it. What closing it answers is lost, so that a regular file is asked to be on its disk before.
fn keeps(to: &File) -> bool {
    if to.sync_all().is_ok() {
        return true;
    }
    match to.metadata() {
        Ok(found) => !found.is_file(),
        Err(_) => false,
    }
}

// Whether bytes were written to the file of a name.
fn write_file(rt: HostRuntime, path: &[u8], file: &[u8]) -> bool {
    let Ok(name) = str::from_utf8(path) else {
        return false;
    };
    let Ok(to) = File::create(&rt, name) else {
        return false;
    };
    let written = io::write_all(to.as_raw_fd(), file);
    written && keeps(&to)
}

// The state and its memory to a new file of a name.
fn store_to(rt: HostRuntime, path: &[u8], state: State, memory: &[u8]) -> Result<(), End> {
    let mut file = buffers::bytes::<FILE_BYTES>();
    let made = files::store_file(state, memory, &mut file);
    let written = match made {
        Ok(n) => write_file(rt, path, &file[..n]),
        Err(_) => true,
    };
    turn::after_write(made, written)
}

// Stores a run's state and memory in the file that the fourth argument names, where there is one.
pub fn store_at(rt: HostRuntime, end: End, state: State, memory: &[u8]) {
    if !asked::stores(argument_count(rt), end) {
        return;
    }
    let mut path = io::buffer();
    let n = argument(rt, 4, &mut path);
    if let Err(end) = store_to(rt, &path[..n], state, memory) {
        say_file(end);
    }
}
