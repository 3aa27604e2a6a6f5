// Cells onto the grid of symbols and carriers, and off it. 02, S-4.
#![tactic(auto)]

pub mod calls;
pub mod numbered;
pub mod theorems;

// The symbols of a super frame, the carriers of a symbol and the numbers of a grid.
#[derive(Clone, Copy, Debug, PartialEq, Eq)]
pub struct GridSizes {
    pub symbols: u32,
    pub carriers: u32,
    pub numbers: u32,
}
