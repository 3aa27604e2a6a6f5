// The call Read: every block is read into working buffers, and then come the call's answer and what is handed out.
#![tactic(auto)]

pub mod read;
