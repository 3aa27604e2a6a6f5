// What the comparison programs share: settings as text, digests, pseudo-random bits, and the pairings. The terms are those of second/README.md.
#![tactic(auto)]

pub mod digests;
pub mod draws;
pub mod pairings;
pub mod text;
