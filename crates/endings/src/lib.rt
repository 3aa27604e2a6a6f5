// What the desk's program counts and says beside a run's report: what was lost (02, S-13), and what is wrong with a hold file (02, S-7).
#![tactic(auto)]

pub mod lines;
pub mod marks;

// What a run that reads on has lost, by kind: FAC blocks, SDC blocks, multiplex frames.
#[derive(Clone, Copy, Default)]
pub struct Lost {
    pub fac: u64,
    pub sdc: u64,
    pub frames: u64,
}
