// The desk's job `preview`: what it shows, and its run over pipes. 02, S-3.
#![tactic(auto)]

pub mod previews;
pub mod shown;
