// The call Code on the buffers of a job.
#![tactic(auto)]

pub mod code;
