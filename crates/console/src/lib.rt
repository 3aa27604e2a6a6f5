// What the desk's program is asked.
#![tactic(auto)]

pub mod arguments;
pub mod bytes;
pub mod names;

use refusal::Refusal;
use settings::Settings;

// A job on super frames.
#[derive(Clone, Copy)]
pub enum Job {
    Code,
    Read,
    ReadOn,
    Grid,
    Ungrid,
}

// A job on multiplex frames: logical frames of streams into them, and out of them.
#[derive(Clone, Copy)]
pub enum MuxJob {
    Mux,
    Demux,
}

// A hold file from its old form to the new one, and back.
#[derive(Clone, Copy)]
pub enum TurnJob {
    ToNew,
    ToOld,
}

// A job on lines, with its settings where it has any.
// Stays: the three are jobs by their names, and `Nearest` is one of them and no absence of another.
#[derive(Clone, Copy)]
pub enum LineJob {
    Nearest,
    FacBuild(Settings),
    FacRead(Settings),
}

// A job that has settings.
#[derive(Clone, Copy)]
pub enum SettingsJob {
    Frames(Job),
    FacBuild,
    FacRead,
    Multiplex(MuxJob),
    Turn(TurnJob),
    Preview,
    Fit,
}

// What a job's name names.
// Stays: `Nearest` and `Plan` are jobs like the others, only without settings, and no absence of one.
#[derive(Clone, Copy)]
pub enum Named {
    Has(SettingsJob),
    Nearest,
    Plan,
}

// Why the arguments start nothing: they are no job or no description, or their settings or their description are refused.
// Stays: it is the error of a `Result`, and an error without a refusal is said by its name, `Usage`, and not by None.
#[derive(Clone, Copy)]
pub enum NotStarted {
    Usage,
    Refused(Refusal),
}

// What the arguments ask for.
#[derive(Clone, Copy)]
pub enum Start {
    Begin(Job, Settings),
    Lines(LineJob),
    // A job whose third argument is a multiplex description.
    Multiplex(MuxJob, Settings),
    Turn(TurnJob, Settings),
    // The third argument is a hold file's name.
    Preview(Settings),
    // The third argument is a number of bytes.
    Fit(Settings),
    // The second argument is a file's name; a third is a super frame.
    Plan,
}
