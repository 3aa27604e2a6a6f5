// Memory as an accepted Reset leaves it: a frame of zero bits in every slot. 02 S-5.
ghost use Rattle.std.specs.Prelude.{◌≡◌, ◌*◌, ◌/◌, ◌%◌, length, replicate};
ghost use Rattle.cellbytes.specs.CellBytes.{bytes};
ghost use Rattle.superframe.specs.Call.{joined};
ghost use Rattle.superframe.specs.Reset.{start_memory};
ghost use Rattle.superframe.specs.Clauses.{Fits};

use block::buffers::{MOST_BYTES, coordinate_buffer};
use blockcoder::code::code_block;
use cellbytes::cells::to_bytes;
use cellmemory::rows::slot_size;
use channels::Scheme;
use channels::blocks::msc_block;
use settings::answers;

// A frame laid into each of so many slots, a byte for each cell.
fn lay_frame(frame: &[i16], slots: usize, memory: &mut [u8])
    requires { (length frame.now % 2 ≡ 0) × (length memory.old ≡ slots * (length frame.now / 2)) }
    ensures { memory.new ≡ joined (replicate slots (bytes frame.now)) }
{
    let n = frame.len() / 2;
    for i in 0..slots {
        to_bytes(frame, &mut memory[n * i..n * i + n]);
    }
}

// A frame of zero bits is coded once and laid into every slot.
pub fn fill_memory(s: Scheme, memory: &mut [u8])
    requires { Fits s memory.old }
    ensures { memory.new ≡ start_memory s }
{
    let n = slot_size(s.settings);
    let bytes = answers::frame_bytes(s.settings);
    let zeros = [0u8; MOST_BYTES];
    let mut frame = coordinate_buffer();
    code_block(msc_block(s), &zeros[0..bytes], &mut frame[0..n]);
    lay_frame(&frame[0..n], answers::depth(s.settings), memory);
}
