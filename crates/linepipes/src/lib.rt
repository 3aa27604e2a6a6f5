// Jobs over pipes on lines (02, S-1 and S-9), on multiplex frames (02, S-8), on a count of bytes (02, S-14) and on a week plan (02, S-12).
#![tactic(auto)]

pub mod fitting;
pub mod lines;
pub mod multiplex_frames;
pub mod plans;
