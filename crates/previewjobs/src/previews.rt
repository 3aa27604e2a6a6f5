// The job `preview`. 02, S-3.
use crate::shown;
use console::Job;
use holdpipes::files::restore_from;
use jobs::buffers::{MOST_GRID_BYTES, MOST_MEMORY};
use jobs::{buffers, sizes};
use pipes::arguments::argument;
use pipes::input::take_all;
use pipes::output::{STDOUT_FILENO, say_file, say_run};
use settings::Settings;
use superframe::State;
use turns::{End, turn};
use words::Counted;

// A super frame whose bytes have come, and no more.
// Stays: the parameters are those of `shown::show`, to which they go as they are and whose clauses name each buffer.
fn show_bytes(state: State, bytes: &[u8], memory: &mut [u8]) -> Result<(), End> {
    let mut out = buffers::bytes::<MOST_GRID_BYTES>();
    let made = shown::show(state, bytes, memory, &mut out);
    let written = io::write_all(STDOUT_FILENO, &out[..made.unwrap_or(0)]);
    turn::after_write(made, written)
}

// The whole input, shown by a state and its memory.
fn show_input(rt: HostRuntime, state: State, memory: &mut [u8]) -> Result<(), End> {
    let mut bytes = buffers::bytes::<MOST_GRID_BYTES>();
    let n = take_all(&mut rt.stdin(), &mut bytes)?;
    show_bytes(state, &bytes[..n], memory)
}

// From the hold file that the third argument names, which is only read.
fn show_from(rt: HostRuntime, s: Settings, memory: &mut [u8]) {
    let mut path = io::buffer();
    let n = argument(rt, 3, &mut path);
    match restore_from(rt, &path[..n], s, memory) {
        Ok(state) => say_shown(show_input(rt, state, memory)),
        Err(end) => say_file(end),
    }
}

// How many super frames were shown, and why not one.
fn say_shown(shown: Result<(), End>) {
    match shown {
        Ok(()) => say_run(Counted::SuperFrame, End::Whole, 1),
        Err(end) => say_run(Counted::SuperFrame, end, 0),
    }
}

// The same on the part of the largest memory that the settings need.
pub fn preview(rt: HostRuntime, s: Settings) {
    let space = sizes::room(Job::Code, s);
    let mut memory = buffers::bytes::<MOST_MEMORY>();
    show_from(rt, s, &mut memory[..space.memory]);
}
