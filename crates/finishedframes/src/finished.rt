// The frames that a call's rows finish, laid one behind the other as they were sent. 01 "Buffers and state".
ghost use Rattle.lists.specs.Buffers.{Long};
ghost use Rattle.finishedframes.specs.Clauses.{FinishLent, FrameLaid};

use block::buffers::MOST_NUMBERS;
use cellbytes::cells::to_numbers;
use cellmemory::rows::{next_state, slot_size};
use lists::buffers::buffer;
use settings::answers;
use superframe::State;

// Room for the cells of three frames of the largest settings.
pub fn frames_buffer() -> [i16; 3 * MOST_NUMBERS]
    ensures { Long 36708 result }
{
    buffer(0)
}

// After a row: the cells of the frame that it finished, if any, laid behind those of the frames before. They stand in the slot that is written next.
pub fn lay_finished(finished: u8, state: State, memory: &[u8], cells: &mut [i16]) -> u8
    requires { FinishLent finished state memory.now cells.old }
    ensures { FrameLaid finished state memory.now cells.old result cells.new }
{
    let s = state.scheme.settings;
    if state.count as usize + 1 < answers::depth(s) {
        return finished;
    }
    let after = next_state(state);
    let n = slot_size(s);
    let at = after.position as usize * (n / 2);
    let to = n * finished as usize;
    to_numbers(&memory[at..at + n / 2], &mut cells[to..to + n]);
    finished + 1
}
