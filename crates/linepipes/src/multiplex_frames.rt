// Jobs on multiplex frames.
use console::{MuxJob, NotStarted};
use muxjobs::{MOST_BYTES, argument, steps};
use pipes::arguments::argument;
use pipes::input::fill;
use pipes::output::{STDOUT_FILENO, say_run, say_settings, say_usage};
use settings::Settings;
use turns::{End, turn};
use words::Counted;

// What makes the multiplex frames of a run.
#[derive(Clone, Copy)]
struct Run<'a> {
    job: MuxJob,
    settings: Settings,
    description: &'a [u16],
}

impl Run<'_> {
    // The next multiplex frame.
    fn take_frame(self, rt: HostRuntime, bytes: &mut [u8], out: &mut [u8]) -> Result<(), End> {
        fill(rt, bytes)?;
        let made = steps::frame(self.job, self.settings, self.description, bytes, out);
        let written = io::write_all(STDOUT_FILENO, &out[..made.unwrap_or(0)]);
        turn::after_write(made, written)
    }

    // Multiplex frames up to the first end.
    fn take_frames(self, rt: HostRuntime, bytes: &mut [u8], out: &mut [u8]) {
        for count in 0..u64::MAX {
            if let Err(end) = self.take_frame(rt, bytes, out) {
                say_run(Counted::MultiplexFrame, end, count);
                return;
            }
        }
    }

    // The run, on the part of the largest buffers that it needs.
    fn begin(self, rt: HostRuntime) -> Result<(), NotStarted> {
        let plan = steps::plan(self.job, self.settings, self.description)?;
        let mut bytes = [0u8; MOST_BYTES];
        let mut out = [0u8; MOST_BYTES];
        self.take_frames(rt, &mut bytes[..plan.input], &mut out[..plan.output]);
        Ok(())
    }
}

// A run with the description that a word is.
fn begin_with(
    rt: HostRuntime,
    job: MuxJob,
    settings: Settings,
    word: &[u8],
) -> Result<(), NotStarted> {
    let told = argument::description(word).ok_or(NotStarted::Usage)?;
    let description = &told.values[..told.count];
    let run = Run {
        job,
        settings,
        description,
    };
    run.begin(rt)
}

// The same with the third argument.
pub fn begin(rt: HostRuntime, job: MuxJob, settings: Settings) {
    let mut word = [0u8; 64];
    let n = argument(rt, 3, &mut word);
    match begin_with(rt, job, settings, &word[..n]) {
        Ok(()) => {}
        Err(NotStarted::Usage) => say_usage(),
        Err(NotStarted::Refused(refusal)) => say_settings(refusal.number()),
    }
}
