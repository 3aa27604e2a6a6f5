// The jobs by their names, a group at a time.
// Stays: tried `match word { b"to-new" => .. }` in `turn_named`: it leaves a goal for each byte that may differ, twelve for two names; the check finds none.
ghost use Rattle.std.specs.Prelude.{◌≡◌, cond};
ghost use Rattle.console.specs.Names.{same_bytes, frames_named, lines_named, multiplex_named, turn_named, asked_named, named};

use crate::{Job, MuxJob, Named, SettingsJob, TurnJob};

// What a word names, if it is the name, and otherwise what else it names.
#[tactic(auto, using(crate::proofs::Words::same_is))]
fn either(word: &[u8], name: &[u8], one: Named, other: Option<Named>) -> Option<Named>
    ensures { result ≡ cond (same_bytes word.now name.now) (Some one) other }
{
    if word == name { Some(one) } else { other }
}

// The same for a job that has settings.
fn has(word: &[u8], name: &[u8], job: SettingsJob, other: Option<Named>) -> Option<Named>
    ensures { result ≡ cond (same_bytes word.now name.now) (Some (Named.Has job)) other }
{
    either(word, name, Named::Has(job), other)
}

// The jobs on super frames.
#[tactic(auto, unfolding(crate::specs::Names::frames_named, crate::specs::Text::bytes_in, lists::specs::Lists::table))]
fn frames_named(word: &[u8], other: Option<Named>) -> Option<Named>
    ensures { result ≡ frames_named word.now other }
{
    let ungrid = has(word, b"ungrid", SettingsJob::Frames(Job::Ungrid), other);
    let grid = has(word, b"grid", SettingsJob::Frames(Job::Grid), ungrid);
    let on = has(word, b"read-on", SettingsJob::Frames(Job::ReadOn), grid);
    let read = has(word, b"read", SettingsJob::Frames(Job::Read), on);
    has(word, b"code", SettingsJob::Frames(Job::Code), read)
}

// The jobs on lines.
#[tactic(auto, unfolding(crate::specs::Names::lines_named, crate::specs::Text::bytes_in, lists::specs::Lists::table))]
fn lines_named(word: &[u8], other: Option<Named>) -> Option<Named>
    ensures { result ≡ lines_named word.now other }
{
    let nearest = either(word, b"nearest", Named::Nearest, other);
    let reading = has(word, b"fac-read", SettingsJob::FacRead, nearest);
    has(word, b"fac-build", SettingsJob::FacBuild, reading)
}

// The jobs on multiplex frames.
#[tactic(auto, unfolding(crate::specs::Names::multiplex_named, crate::specs::Text::bytes_in, lists::specs::Lists::table))]
fn multiplex_named(word: &[u8], other: Option<Named>) -> Option<Named>
    ensures { result ≡ multiplex_named word.now other }
{
    let demux = has(word, b"demux", SettingsJob::Multiplex(MuxJob::Demux), other);
    has(word, b"mux", SettingsJob::Multiplex(MuxJob::Mux), demux)
}

// The jobs on hold files.
#[tactic(auto, unfolding(crate::specs::Names::turn_named, crate::specs::Text::bytes_in, lists::specs::Lists::table))]
fn turn_named(word: &[u8], other: Option<Named>) -> Option<Named>
    ensures { result ≡ turn_named word.now other }
{
    let old = has(word, b"to-old", SettingsJob::Turn(TurnJob::ToOld), other);
    has(word, b"to-new", SettingsJob::Turn(TurnJob::ToNew), old)
}

// The jobs that ask one question.
#[tactic(auto, unfolding(crate::specs::Names::asked_named, crate::specs::Text::bytes_in, lists::specs::Lists::table))]
fn asked_named(word: &[u8], other: Option<Named>) -> Option<Named>
    ensures { result ≡ asked_named word.now other }
{
    let fit = has(word, b"fit", SettingsJob::Fit, other);
    let plan = either(word, b"plan", Named::Plan, fit);
    has(word, b"preview", SettingsJob::Preview, plan)
}

// The job that a word names.
#[tactic(auto, unfolding(crate::specs::Names::named))]
pub fn named(word: &[u8]) -> Option<Named>
    ensures { result ≡ named word.now }
{
    let asked = asked_named(word, None);
    let turn = turn_named(word, asked);
    let multiplex = multiplex_named(word, turn);
    let lines = lines_named(word, multiplex);
    frames_named(word, lines)
}
