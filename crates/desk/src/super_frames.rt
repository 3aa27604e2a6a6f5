// Jobs on super frames.
// Stays, in this module: tried with the buffers in a struct of `&mut`s: at the call of `step` the check says that its borrow checker
// "does not cover this function yet".
use console::Job;
use endings::Lost;
use endings::marks::lost_after;
use holdpipes::files::{begin_from, store_at};
use jobs::buffers::{MOST_GRID_BYTES, MOST_MEMORY};
use jobs::{buffers, sizes};
use pipes::input::fill;
use pipes::output::{STDOUT_FILENO, say_file, say_lost, say_run};
use settings::Settings;
use superframe::State;
use superframejobs::superframes;
use superframejobs::superframes::reads_on;
use turns::{End, turn};
use words::Counted;

// The next super frame; the state becomes that after it.
fn take(
    rt: HostRuntime,
    job: Job,
    state: &mut State,
    bytes: &mut [u8],
    memory: &mut [u8],
    out: &mut [u8],
) -> Result<(), End> {
    fill(rt, bytes)?;
    let step = superframes::step(job, *state, bytes, memory, out);
    *state = step.state;
    let written = io::write_all(STDOUT_FILENO, &out[..step.made.unwrap_or(0)]);
    turn::after_write(step.made, written)
}

// A run: how it ended, how many super frames went through, what it lost, and the state after them.
#[derive(Clone, Copy)]
struct Ran {
    end: End,
    count: u64,
    lost: Lost,
    state: State,
}

// Super frames up to the first end. A loop that is proved to end has a last turn.
fn run(
    rt: HostRuntime,
    job: Job,
    start: State,
    bytes: &mut [u8],
    memory: &mut [u8],
    out: &mut [u8],
) -> Ran {
    let mut state = start;
    let mut lost = Lost::default();
    for count in 0..u64::MAX {
        if let Err(end) = take(rt, job, &mut state, bytes, memory, out) {
            return Ran {
                end,
                count,
                lost,
                state,
            };
        }
        if reads_on(job) {
            lost = lost_after(lost, out);
        }
    }
    Ran {
        end: End::Whole,
        count: u64::MAX,
        lost,
        state,
    }
}

// A run from a state, and what is stored and said at its end.
fn run_from(
    rt: HostRuntime,
    job: Job,
    start: State,
    bytes: &mut [u8],
    memory: &mut [u8],
    out: &mut [u8],
) {
    let ran = run(rt, job, start, bytes, memory, out);
    store_at(rt, ran.end, ran.state, memory);
    say_run(Counted::SuperFrame, ran.end, ran.count);
    if reads_on(job) {
        say_lost(ran.lost);
    }
}

// A run from where the arguments say.
fn run_settings(
    rt: HostRuntime,
    job: Job,
    s: Settings,
    bytes: &mut [u8],
    memory: &mut [u8],
    out: &mut [u8],
) {
    match begin_from(rt, s, memory) {
        Ok(start) => run_from(rt, job, start, bytes, memory, out),
        Err(end) => say_file(end),
    }
}

// The same on the part of the largest buffers that the settings need.
pub fn begin(rt: HostRuntime, job: Job, s: Settings) {
    let space = sizes::room(job, s);
    let mut bytes = buffers::bytes::<MOST_GRID_BYTES>();
    let mut memory = buffers::bytes::<MOST_MEMORY>();
    let mut out = buffers::bytes::<MOST_GRID_BYTES>();
    let n = space.input;
    let m = space.memory;
    run_settings(rt, job, s, &mut bytes[0..n], &mut memory[0..m], &mut out);
}
