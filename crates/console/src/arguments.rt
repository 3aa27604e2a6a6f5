// What the arguments ask for: a job, and settings in twenty hexadecimal digits.
ghost use Rattle.std.specs.Prelude.{◌≡◌};
ghost use Rattle.console.specs.declared.NotStarted.{NotStarted};
ghost use Rattle.console.specs.Arguments.{settings_word, started, start_yield, begun_with, fewest_of, most_of, counted, begun, begun_plain, start_of};

use crate::bytes::put_bytes;
use crate::names::named;
use crate::{Job, LineJob, Named, NotStarted, SettingsJob, Start};
use refusal::Refusal;
use settings::Settings;
use settings::refusals::check;

// The settings of a word of twenty digits.
#[tactic(auto, using(crate::proofs::Words::word_parsed), unfolding(crate::specs::Arguments::settings_word))]
fn settings_word(digits: &[u8]) -> Option<Settings>
    ensures { result ≡ settings_word digits.now }
{
    if digits.len() != 20 {
        return None;
    }
    let mut line = [10u8; 21];
    put_bytes(digits, &mut line, 0);
    line::read::parse(&line)
}

// A job with its settings.
#[tactic(auto, unfolding(crate::specs::Arguments::started))]
fn started(job: SettingsJob, s: Settings) -> Start
    ensures { result ≡ started job s }
{
    // Stays: the job comes from the command line as a value, so that a `match` says what it starts.
    match job {
        SettingsJob::Frames(frames) => Start::Begin(frames, s),
        SettingsJob::FacBuild => Start::Lines(LineJob::FacBuild(s)),
        SettingsJob::FacRead => Start::Lines(LineJob::FacRead(s)),
        SettingsJob::Multiplex(frames) => Start::Multiplex(frames, s),
        SettingsJob::Turn(file) => Start::Turn(file, s),
        SettingsJob::Preview => Start::Preview(s),
        SettingsJob::Fit => Start::Fit(s),
    }
}

// Settings that are refused.
impl From<Refusal> for NotStarted {
    ghost from_gives = { λ refusal not. not ≡ NotStarted.Refused refusal };

    fn from(refusal: Refusal) -> NotStarted {
        NotStarted::Refused(refusal)
    }
}

// The same, if nothing refuses the settings.
#[tactic(auto, using(refusal::proofs::Positive::number_positive), unfolding(crate::specs::Arguments::begun_with))]
fn begin_with(job: SettingsJob, s: Settings) -> Result<Start, NotStarted>
    ensures { start_yield result ≡ begun_with job s }
{
    check(s)?;
    Ok(started(job, s))
}

// How many arguments are taken, the program's name and the job's among them.
#[derive(Clone, Copy)]
struct Taken {
    fewest: usize,
    most: usize,
}

impl Taken {
    // Whether there are no fewer arguments and no more.
    #[tactic(auto, unfolding(crate::specs::Arguments::counted))]
    fn has(self, count: usize) -> bool
        ensures { result ≡ counted count self.fewest self.most }
    {
        (self.fewest <= count) & (count <= self.most)
    }
}

// How many a job takes.
#[tactic(auto, unfolding(crate::specs::Arguments::fewest_of, crate::specs::Arguments::most_of, crate::specs::Arguments::most_of_frames))]
fn taken_by(job: SettingsJob) -> Taken
    ensures fewest { result.fewest ≡ fewest_of job }
    ensures most { result.most ≡ most_of job }
{
    // Stays: the job comes from the command line as a value, so that a `match` says what it takes.
    let (fewest, most) = match job {
        SettingsJob::Frames(Job::Code) => (3, 5),
        SettingsJob::Frames(_) | SettingsJob::Turn(_) => (3, 3),
        SettingsJob::FacBuild | SettingsJob::FacRead => (3, 3),
        SettingsJob::Multiplex(_) | SettingsJob::Preview | SettingsJob::Fit => (4, 4),
    };
    Taken { fewest, most }
}

// A job with so many arguments, the program's name and the job's among them.
#[tactic(auto, unfolding(crate::specs::Arguments::begun, crate::specs::Arguments::begun_by))]
fn begin(job: SettingsJob, count: usize, digits: &[u8]) -> Result<Start, NotStarted>
    ensures { start_yield result ≡ begun job count digits.now }
{
    if !taken_by(job).has(count) {
        return Err(NotStarted::Usage);
    }
    let s = settings_word(digits).ok_or(NotStarted::Usage)?;
    begin_with(job, s)
}

// A job that has no settings, with so many arguments.
#[tactic(auto, unfolding(crate::specs::Arguments::begun_plain))]
fn begin_plain(start: Start, count: usize, taken: Taken) -> Result<Start, NotStarted>
    ensures { start_yield result ≡ begun_plain start count taken.fewest taken.most }
{
    if !taken.has(count) {
        return Err(NotStarted::Usage);
    }
    Ok(start)
}

// What so many arguments ask for, of which the first word is the job's and the second the settings'.
#[tactic(auto, unfolding(crate::specs::Arguments::start_of, crate::specs::Arguments::start_by))]
pub fn start(count: usize, word: &[u8], digits: &[u8]) -> Result<Start, NotStarted>
    ensures { start_yield result ≡ start_of count word.now digits.now }
{
    // Stays: the job comes from the command line as a word, so that a `match` on what it names says how it begins.
    match named(word) {
        Some(Named::Has(job)) => begin(job, count, digits),
        Some(Named::Nearest) => {
            let taken = Taken { fewest: 2, most: 2 };
            begin_plain(Start::Lines(LineJob::Nearest), count, taken)
        }
        Some(Named::Plan) => begin_plain(Start::Plan, count, Taken { fewest: 3, most: 4 }),
        None => Err(NotStarted::Usage),
    }
}
