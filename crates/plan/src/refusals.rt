// The refusals of a plan: 1 to 7, 24, 25, 26.
ghost use Rattle.std.specs.Prelude.{◌≡◌, map};
ghost use Rattle.lists.specs.Bools.{every};
ghost use Rattle.refusal.specs.Numbers.{answer};
ghost use Rattle.plan.specs.Rules.{rules_of};
ghost use Rattle.plan.specs.Answers.{settings_refusal, ordered, all_covered, plan_refusal};
ghost use Rattle.plan.specs.Clauses.{afters_covered, firsts_once};

use crate::rules::{WEEK_MINUTES, count, find, rule_at};
use refusal::Refusal;

const MOST_RULES: usize = 64;

// Super frames of a week.
pub const WEEK_FRAMES: u32 = 504000;

// The first rule at fault among the first 64 refuses, by 1 to 7.
fn check_settings(rules: &[u8]) -> Result<(), Refusal>
    ensures { answer result ≡ settings_refusal (rules_of rules.now) }
{
    for k in 0..count(rules).min(MOST_RULES) {
        settings::refusals::check(rule_at(rules, k).settings)?;
    }
    Ok(())
}

// Whether no rule is empty or reversed or has a minute above 10,080.
fn all_ordered(rules: &[u8]) -> bool
    ensures { result ≡ every (map ordered (rules_of rules.now)) }
{
    (0..count(rules)).all(|k| rule_at(rules, k).is_ordered())
}

// Whether each `after` below 10,080 has a rule.
fn afters_covered(rules: &[u8]) -> bool
    ensures { result ≡ afters_covered (rules_of rules.now) }
{
    (0..count(rules)).all(|k| {
        let after = rule_at(rules, k).after;
        WEEK_MINUTES <= after || 0 < find(rules, after).count
    })
}

// Whether no `first` has two rules.
fn firsts_once(rules: &[u8]) -> bool
    ensures { result ≡ firsts_once (rules_of rules.now) }
{
    (0..count(rules)).all(|k| find(rules, rule_at(rules, k).first).count < 2)
}

// Whether every minute has a rule: minute 0 and each `after` below 10,080 tell.
fn all_covered(rules: &[u8]) -> bool
    ensures { result ≡ all_covered (rules_of rules.now) }
{
    0 < find(rules, 0).count && afters_covered(rules)
}

// Whether a plan and a super frame are refused, and by which of 1 to 7, 24, 25 and 26.
// Stays: the rules' bytes and the super frame stand apart, as in the C interface; all tests but one go over the rules alone.
#[tactic(auto, using(refusal::proofs::Positive::number_positive, crate::proofs::Minutes::firsts_all), unfolding(crate::specs::Answers::plan_refusal, settings::specs::Refusal::first))]
pub fn check(rules: &[u8], t: u32) -> Result<(), Refusal>
    ensures { answer result ≡ plan_refusal (rules_of rules.now) t }
{
    check_settings(rules)?;
    if MOST_RULES < count(rules) || !all_ordered(rules) || WEEK_FRAMES <= t {
        return Err(Refusal::PlanRange);
    }
    if !all_covered(rules) {
        return Err(Refusal::NoRule);
    }
    if !firsts_once(rules) {
        return Err(Refusal::TwoRules);
    }
    Ok(())
}
