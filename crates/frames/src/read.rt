// The frames that a call's rows finish, each read into its own place. 01 "Buffers and state" and "Operations".
ghost use Rattle.frames.specs.Clauses.{RowsLent, RowsRead};

use crate::Frames;
use blockreader::several::read_several;
use cellmemory::buffers::row_buffer;
use cellmemory::rows::{next_state, row_places, slot_size, take_row};
use channels::blocks::msc_block;
use finishedframes::finished::{frames_buffer, lay_finished};
use superframe::State;

// Three rows taken into memory, each frame that they finish taken out right after its row, since the next row overwrites its slot, and then those frames read.
pub fn read_rows(state: State, msc: &[i16], memory: &mut [u8], out: &mut [u8]) -> Frames
    requires { RowsLent state msc.now memory.old out.old }
    ensures { RowsRead state msc.now memory.old result memory.new out.new }
{
    let n = slot_size(state.scheme.settings);
    let mut places = row_buffer();
    row_places(state.scheme.settings, &mut places);
    let mut cells = frames_buffer();
    let mut finished: u8 = 0;
    let mut after = state;
    for i in 0..3 {
        let at = n * i;
        take_row(after, &places, &msc[at..at + n], memory);
        finished = lay_finished(finished, after, memory, &mut cells);
        after = next_state(after);
    }
    let k = msc_block(state.scheme);
    out.fill(0);
    let given = read_several(k, finished as usize, &cells, out);
    Frames {
        given,
        finished,
        after,
    }
}
