// What the calls answer, and the state after them, for a caller outside that has the refusal as a byte. Nothing here calls them.
ghost use Rattle.std.specs.Prelude.{◌≡◌, length};
ghost use Rattle.statebytes.specs.Answers.{state_after, state_read, answer_word};
ghost use Rattle.statebytes.specs.Numbered.{numbered_done, numbered_answer};

use crate::answers;
use refusal::answer;
use settingbytes::numbered::Numbered;
use superframe::{Finished, State};

// The answer of Reset, Code and preview, with the state written where the call is accepted.
// Stays: the refusal is a byte, and its number tells acceptance. docs/PROMISES.md names this function, and `&mut [u8; 208]` would ask of a caller
// that has a slice of that length to turn it into an array.
#[tactic(auto, unfolding(crate::specs::Answers::state_after))]
pub fn finish(done: Numbered<State>, bytes: &mut [u8]) -> u8
    requires { length bytes.old ≡ 208 }
    ensures value { result ≡ done.refusal }
    ensures bytes_after { bytes.new ≡ state_after (numbered_done done) bytes.old }
{
    match done.refusal {
        0 => answer(answers::finish(Ok(done.values), bytes)),
        number => number,
    }
}

// The answer of Read, with the state written where the call is accepted: the number of finished frames, or the number of a refusal and its block.
// Stays: docs/PROMISES.md names this function; `&mut [u8; 208]` would ask of a caller that has a slice of that length to turn it into an array.
#[tactic(auto, unfolding(crate::specs::Answers::answer_word, crate::specs::Answers::state_read, superframe::specs::Read::answer_number, superframe::specs::Read::answer_block, superframe::specs::Read::answer_frames))]
pub fn finish_read(reading: Result<u8, (u8, u8)>, state: State, bytes: &mut [u8]) -> u16
    requires { length bytes.old ≡ 208 }
    ensures value { result ≡ answer_word (numbered_answer reading) }
    ensures bytes_after { bytes.new ≡ state_read (numbered_answer reading) state bytes.old }
{
    match reading {
        Ok(frames) => answers::finish_read(Ok(Finished { frames, state }), bytes),
        Err((number, block)) => u16::from_be_bytes([number, block]),
    }
}
