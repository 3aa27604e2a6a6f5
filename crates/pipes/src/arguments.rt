// The program's arguments, as bytes.
ghost use Rattle.std.specs.Prelude.{◌≤◌, length};

use std::env::{Env, FillError};

// Puts argument i at the start of a buffer, and answers its length, or 0 where it is missing or longer than the buffer.
// Stays: to each of the callers a missing word is an empty one, so that with an `Option` each would write `unwrap_or(0)`.
pub fn argument(rt: HostRuntime, i: usize, bytes: &mut [u8]) -> usize
    ensures { result ≤ length bytes.new }
{
    rt.arg(i, bytes).unwrap_or(0)
}

// Whether there is an argument i.
fn has_argument(rt: HostRuntime, i: usize) -> bool {
    let mut none = [0u8; 0];
    match rt.arg(i, &mut none) {
        Ok(_) => true,
        Err(FillError::TooLong) => true,
        Err(FillError::NotPresent) => false,
    }
}

// How many arguments the program was started with, its own name among them.
pub fn argument_count(rt: HostRuntime) -> usize {
    for i in 0..usize::MAX {
        if !has_argument(rt, i) {
            return i;
        }
    }
    usize::MAX
}
