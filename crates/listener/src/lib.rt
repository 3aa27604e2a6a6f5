// A listener who follows a week plan. 02, S-12: laws alone.
#![tactic(auto)]

pub mod theorems;
