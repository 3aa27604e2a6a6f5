// The desk's program: it reads, calls the jobs and writes. What is decided and what is said stands in `turns`, `console`, `words` and the crates of the jobs.
#![tactic(auto)]

mod super_frames;

use console::{NotStarted, Start, arguments};
use holdpipes::files;
use linepipes::{fitting, lines, multiplex_frames, plans};
use pipes::arguments::{argument, argument_count};
use pipes::output::{say_settings, say_usage};
use previewjobs::previews;

// What the arguments ask for.
fn begin(rt: HostRuntime, start: Start) {
    // Stays: what is asked comes from the command line as a value, and each of its jobs is begun with other values.
    match start {
        Start::Begin(job, s) => super_frames::begin(rt, job, s),
        Start::Lines(job) => lines::run_lines(rt, job),
        Start::Multiplex(job, s) => multiplex_frames::begin(rt, job, s),
        Start::Turn(job, s) => files::turn_input(rt, job, s),
        Start::Preview(s) => previews::preview(rt, s),
        Start::Fit(s) => fitting::begin(rt, s),
        Start::Plan => plans::begin(rt),
    }
}

fn main(rt: HostRuntime) {
    let mut word = [0u8; 32];
    let mut digits = [0u8; 32];
    let n = argument(rt, 1, &mut word);
    let m = argument(rt, 2, &mut digits);
    match arguments::start(argument_count(rt), &word[..n], &digits[..m]) {
        Ok(start) => begin(rt, start),
        Err(NotStarted::Usage) => say_usage(),
        Err(NotStarted::Refused(refusal)) => say_settings(refusal.number()),
    }
}
