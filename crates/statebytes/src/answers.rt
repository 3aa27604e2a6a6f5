// Answers of the calls as a C program gets them, and the state after them.
ghost use Rattle.std.specs.Prelude.{◌≡◌, length, ◌+◌, ◌*◌};
ghost use Rattle.refusal.specs.Numbers.{number, answer};
ghost use Rattle.superframe.specs.declared.State.{State};
ghost use Rattle.superframe.specs.Answers.{done, read_done};
ghost use Rattle.statebytes.specs.Answers.{state_after, state_read, answer_word};

use crate::bytes::put_state;
use refusal::Refusal;
use superframe::{Finished, ReadRefusal, State};

// The answer of Reset, Code and preview, with the state written where the call is accepted.
// Stays: docs/PROMISES.md names this function; `&mut [u8; 208]` would ask of a caller that has a slice of that length to turn it into an array.
#[tactic(auto, using(refusal::proofs::Positive::number_positive), unfolding(crate::specs::Answers::state_after))]
pub fn finish(outcome: Result<State, Refusal>, bytes: &mut [u8]) -> Result<(), Refusal>
    requires { length bytes.old ≡ 208 }
    ensures value { (old : State) → answer result ≡ (done old outcome).refusal }
    ensures bytes_after { (old : State) → bytes.new ≡ state_after (done old outcome) bytes.old }
{
    put_state(outcome?, bytes);
    Ok(())
}

// 256 times the refusal's number plus its block.
pub fn refusal_word(refusal: Refusal, block: u8) -> u16
    ensures { result ≡ 256 * number refusal + block }
{
    u16::from_be_bytes([refusal.number(), block])
}

// The answer of Read, with the state written where the call is accepted.
// Stays: docs/PROMISES.md names this function; `&mut [u8; 208]` would ask of a caller that has a slice of that length to turn it into an array.
#[tactic(auto, unfolding(crate::specs::Answers::answer_word, crate::specs::Answers::state_read, superframe::specs::Read::answer_number, superframe::specs::Read::answer_block, superframe::specs::Read::answer_frames))]
pub fn finish_read(outcome: Result<Finished, ReadRefusal>, bytes: &mut [u8]) -> u16
    requires { length bytes.old ≡ 208 }
    ensures value { (old : State) → result ≡ answer_word (read_done old outcome).answer }
    ensures bytes_after { (old : State) → bytes.new
        ≡ state_read (read_done old outcome).answer (read_done old outcome).state bytes.old }
{
    match outcome {
        Ok(read) => {
            put_state(read.state, bytes);
            read.frames as u16
        }
        Err(refused) => refusal_word(refused.refusal, refused.block),
    }
}
