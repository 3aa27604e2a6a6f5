// Measured cells of a channel decided to points and bits. 02, S-10.
#![tactic(auto)]

pub mod bytes;
pub mod calls;
pub mod theorems;

// Whose cells they are.
#[derive(Clone, Copy, Debug, PartialEq, Eq)]
pub enum Channel {
    Fac,
    Sdc,
    Msc,
}
