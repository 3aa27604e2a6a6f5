// Settings in force, and where they change.
ghost use Rattle.std.specs.Prelude.{◌≡◌, ◌<◌, List};
ghost use Rattle.plan.specs.declared.Rule.{Rule};
ghost use Rattle.plan.specs.Rules.{rules_of, settings_at, changes, mark_of};
ghost use Rattle.plan.specs.Answers.{mark_number};
ghost use Rattle.plan.specs.Clauses.{Covered};

use crate::Mark;
use crate::refusals::WEEK_FRAMES;
use crate::rules::{find, rule_at};
use settings::Settings;
use std::marker::Model;

// Super frames of a minute.
pub const MINUTE_FRAMES: u32 = 50;

// Rules of a week in which every minute has one. A clause sees them as a list.
#[derive(Drop)]
struct Week<'a> {
    rules: &'a [u8],
}

impl<'a> Model for Week<'a> {
    ghost Value = { List Rule };

    ghost view = { λ week. rules_of week.rules.now };

    ghost invariant = { λ week. Covered week.rules.now };
}

// The settings in force in a super frame; the week begins again after its last one.
fn settings_at(week: &Week<'_>, t: u32) -> Settings
    ensures { result ≡ settings_at week.now t }
{
    let rules = week.rules;
    let place = find(rules, (t % WEEK_FRAMES / MINUTE_FRAMES) as u16).place;
    rule_at(rules, place).settings
}

// Whether two super frames have unequal settings.
#[tactic(auto, unfolding(crate::specs::Rules::changes, crate::specs::Rules::same_settings))]
fn changes(week: &Week<'_>, t: u32, u: u32) -> bool
    ensures { result ≡ changes week.now t u }
{
    settings_at(week, t) != settings_at(week, u)
}

// Closing for the last two super frames before unequal settings, First for the first with them, otherwise Other.
pub fn mark(rules: &[u8], t: u32) -> Mark
    requires covered { Covered rules.now }
    requires t_bound { t < 504000 }
    ensures { mark_number result ≡ mark_of (rules_of rules.now) t }
{
    let week = Week { rules };
    if changes(&week, t, t + 1) | changes(&week, t, t + 2) {
        return Mark::Closing;
    }
    if changes(&week, t, t + (WEEK_FRAMES - 1)) {
        return Mark::First;
    }
    Mark::Other
}
