// Hold files turned into their other form. 02, S-7.
#![tactic(auto)]

pub mod convert;
pub mod theorems;

// The bytes of an old and of a new file.
#[derive(Clone, Copy)]
pub struct FileSizes {
    pub old: u32,
    pub new: u32,
}
