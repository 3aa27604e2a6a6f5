// What each of the desk's jobs makes of a super frame. The program `desk` only reads, calls and writes.
#![tactic(auto)]

pub mod superframes;
