// A text as it is made: bytes behind those that are there.
ghost use Rattle.std.specs.Prelude.{◌≡◌, ℕ, ◌+◌, ◌≤◌, List, [], ◌++◌, length, take, ⊤};
ghost use Rattle.line.specs.Written.{decimal};

use console::bytes::put_bytes;
use std::alloc::AllocError;
use std::marker::Model;

// The room for a text.
const MOST_BYTES: usize = 1024;

// Stays: the project takes nothing from the heap, so that a text is an array and how much of it counts.
#[derive(Drop)]
pub struct Text {
    bytes: [u8; MOST_BYTES],
    len: usize,
}

impl Model for Text {
    ghost Value = { List ℕ };

    ghost view = { λ t. take t.len t.bytes };

    ghost invariant = { λ t. t.len ≤ 1024 };
}

// The same text once more; a clone takes no memory, and so does not fail. Not `Copy`: that needs a model from whose value the fields come back,
// and the bytes past a text's end do not.
impl Clone for Text {
    ghost is_clone = { λ text copy. copy ≡ text };

    ghost is_infallible = { λ _. ⊤ };

    fn clone(&self) -> Result<Text, AllocError> {
        // Stays: a derived clone promises of the fields that they are clones, and has no clause that says so of the text.
        Ok(Text {
            bytes: self.bytes,
            len: self.len,
        })
    }
}

impl Text {
    pub fn new() -> Text
        ensures { result ≡ [] }
    {
        Text {
            bytes: [0; MOST_BYTES],
            len: 0,
        }
    }

    pub fn bytes(&self) -> &[u8]
        ensures { result.now ≡ self.now }
    {
        &self.bytes[..self.len]
    }

    pub fn put(&mut self, text: &[u8])
        requires { length self.old + length text.now ≤ 1024 }
        ensures { self.new ≡ self.old ++ text.now }
    {
        put_bytes(text, &mut self.bytes, self.len);
        self.len += text.len();
    }

    // A number in decimal.
    pub fn put_decimal(&mut self, n: u64)
        requires { length self.old + 20 ≤ 1024 }
        ensures put { self.new ≡ self.old ++ decimal n }
        ensures room { length self.new ≤ length self.old + 20 }
    {
        let mut digits = [0; 20];
        let count = io::decimal(n, &mut digits);
        self.put(&digits[..count]);
    }
}
