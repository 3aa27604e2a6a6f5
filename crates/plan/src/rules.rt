// Rules in a plan's bytes.
ghost use Rattle.std.specs.Prelude.{◌≡◌, length, get_or, ◌≤◌, ◌<◌};
ghost use Rattle.plan.specs.Rules.{rule_of, rules_of, no_rule};
ghost use Rattle.plan.specs.Clauses.{found_in};

use crate::{Found, Rule};
use settingbytes::bytes::settings_of;

// A rule is fourteen bytes.
pub const RULE_BYTES: usize = 14;

// Minutes of a week.
pub const WEEK_MINUTES: u16 = 10080;

// A rule from its fourteen bytes, with which the slice begins.
fn rule_of(bytes: &[u8]) -> Rule
    requires { 14 ≤ length bytes.now }
    ensures { result ≡ rule_of bytes.now }
{
    Rule {
        first: u16::from_be_bytes([bytes[0], bytes[1]]),
        after: u16::from_be_bytes([bytes[2], bytes[3]]),
        settings: settings_of(&bytes[4..]),
    }
}

// How many whole rules there are.
pub fn count(rules: &[u8]) -> usize
    ensures { result ≡ length (rules_of rules.now) }
{
    rules.len() / RULE_BYTES
}

// A rule by its place in the list.
pub fn rule_at(rules: &[u8], k: usize) -> Rule
    requires { k < length (rules_of rules.now) }
    ensures { result ≡ get_or (rules_of rules.now) k no_rule }
{
    rule_of(&rules[RULE_BYTES * k..])
}

// The rules that have a minute, from the last rule to the first.
pub fn find(rules: &[u8], minute: u16) -> Found
    ensures { result ≡ found_in (rules_of rules.now) minute }
{
    let many = count(rules);
    let mut found = Found {
        count: 0,
        place: many,
    };
    for k in (0..many).rev() {
        if rule_at(rules, k).has(minute) {
            found = Found {
                count: found.count + 1,
                place: k,
            };
        }
    }
    found
}
