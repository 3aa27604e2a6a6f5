// The settings of a run, their refusals, and the lengths and sizes that follow from them.
#![tactic(auto)]

pub mod answers;
pub mod refusals;

// 01 "Settings". All are unsigned numbers; any value may come in.
// Stays: modes and levels are numbers, since the C interface hands in any byte, and refusals 1 to 7 say which is out of range.
#[derive(Clone, Copy, PartialEq, Eq)]
pub struct Settings {
    // robustness mode, 0 to 3 for A to D
    pub mode: u8,
    // spectrum occupancy, 0 to 5
    pub occupancy: u8,
    // MSC mode: 0 64-QAM SM, 1 HMmix, 2 HMsym, 3 16-QAM SM
    pub msc: u8,
    // protection levels of parts A and B
    pub levela: u8,
    pub levelb: u8,
    // protection level of the very strongly protected part
    pub vspp: u8,
    // X, the bytes in part A
    pub x: u16,
    // SDC mode: 0 16-QAM, 1 4-QAM
    pub sdc: u8,
    // 0 long, 1 short
    pub interleaving: u8,
}

// The answer of `lengths`.
#[derive(Clone, Copy, Default)]
pub struct Lengths {
    pub n1: u16,
    pub n2: u16,
    pub l1: u16,
    pub l2: u16,
    pub vspp: u16,
}

// The answer of `sizes`: the length of every buffer that a caller lends.
#[derive(Clone, Copy, Default)]
pub struct Sizes {
    pub sdcbytes: u32,
    pub mscbytes: u32,
    pub facnumbers: u32,
    pub sdcnumbers: u32,
    pub mscnumbers: u32,
    pub memory: u32,
}
