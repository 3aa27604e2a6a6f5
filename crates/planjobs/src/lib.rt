// The desk's job on a week plan: lines of a plan's file, and what is printed. 02, S-12.
#![tactic(auto)]

pub mod arguments;
pub mod lines;
pub mod week;

ghost use Rattle.std.specs.Prelude.{◌≡◌, ⊤};

use std::alloc::AllocError;
use words::text::Text;

// A number in decimal: its value, and the place after its digits.
#[derive(Clone, Copy)]
pub struct Number {
    pub value: u32,
    pub next: usize,
}

// What the arguments ask for: a plan's week, or a super frame of it.
// Stays: `Option<u32>` would say the week by `None`, and `asked` says by `None` already that the arguments ask for nothing.
#[derive(Clone, Copy)]
pub enum Asked {
    Week,
    SuperFrame(u32),
}

// The line of a stretch, and the minute with which the next one begins.
#[derive(Drop)]
pub struct Stretch {
    pub line: Text,
    pub next: u16,
}

// The same stretch once more; a clone takes no memory, and so does not fail.
impl Clone for Stretch {
    ghost is_clone = { λ stretch copy. copy ≡ stretch };

    ghost is_infallible = { λ _. ⊤ };

    fn clone(&self) -> Result<Stretch, AllocError> {
        // Stays: a derived clone promises of the fields that they are clones, and has no clause that says so of the stretch.
        Ok(Stretch {
            line: self.line.clone()?,
            next: self.next,
        })
    }
}
