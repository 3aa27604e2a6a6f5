// Hold files: digits, and the bytes of lines and of files, in the old and in the new form. 02, S-7.
#![tactic(auto)]

pub mod digits;
pub mod lengths;

// The form of a file: eight digits a cell, or two.
#[derive(Clone, Copy)]
pub enum Form {
    Old,
    New,
}
