// The blocks of a Code call: the cells of the FAC blocks, and the rows and fillers of the multiplex frames. 01 "Buffers and state" and "Operations".
ghost use Rattle.std.specs.Prelude.{◌*◌, ◌≡◌, map, length};
ghost use Rattle.block.specs.Block.{cells_from};
ghost use Rattle.patterns.specs.Loaded.{Allowed};
ghost use Rattle.cellmemory.specs.Clauses.{RowLent, RowOrder};
ghost use Rattle.channels.specs.Fac.{fac_block};
ghost use Rattle.superframe.specs.Call.{parts, joined, fac_bytes, fac_numbers};
ghost use Rattle.codeblocks.specs.Clauses.{FrameSent, MscFits, MscCoded};

use blockcoder::code::code_blocks;
use cellbytes::cells::to_bytes;
use cellmemory::buffers::row_buffer;
use cellmemory::fillers::write_fillers;
use cellmemory::rows::{next_state, row_places, send_row, slot_size};
use channels::Scheme;
use channels::blocks::{fac_block, msc_block};
use superframe::State;

// The cells of three FAC blocks.
// Stays: `codecall::code_accepted` has the fact with what its refusals leave (`CodeFits`), and `fac_block` takes a Scheme; a type for an allowed table
// would be built there for this one call, and made a Scheme again here.
pub fn code_fac(s: Scheme, fac: &[u8], cells: &mut [i16])
    requires { Allowed s.table × (length fac.now ≡ 3 * fac_bytes) × (length cells.old ≡ 3 * fac_numbers) }
    ensures { cells.new ≡ joined (map (cells_from (fac_block s)) (parts fac_bytes fac.now)) }
{
    code_blocks(fac_block(s), 3, fac, cells);
}

// A frame's cells stored at the position, a byte for each, and the row that is sent then in their place.
fn send_frame(state: State, rowplaces: &[u16], memory: &mut [u8], cells: &mut [i16])
    requires { RowLent state memory.old cells.old × RowOrder state.scheme.settings rowplaces.now }
    ensures { FrameSent state cells.old memory.old memory.new cells.new }
{
    let n = cells.len() / 2;
    let at = state.position as usize * n;
    to_bytes(cells, &mut memory[at..at + n]);
    send_row(state, rowplaces, memory, cells);
}

// The MSC sequence, three rows and the fillers, and the state after it. The cells of all frames are coded into the room of the rows: a frame's stand
// in memory when its row is written over them.
pub fn code_msc(state: State, msc: &[u8], memory: &mut [u8], cells: &mut [i16]) -> State
    requires { MscFits state msc.now memory.old cells.old }
    ensures { MscCoded state msc.now memory.old result memory.new cells.new }
{
    let s = state.scheme.settings;
    let n = slot_size(s);
    code_blocks(msc_block(state.scheme), 3, msc, &mut cells[0..3 * n]);
    let mut rowplaces = row_buffer();
    row_places(s, &mut rowplaces);
    let mut after = state;
    for i in 0..3 {
        let at = n * i;
        send_frame(after, &rowplaces, memory, &mut cells[at..at + n]);
        after = next_state(after);
    }
    write_fillers(&mut cells[3 * n..]);
    after
}
