// Rows of MSC cells: what memory sends, and a row put back into memory. 01 "Cell interleaving"; 001 clause 7.6.
ghost use Rattle.std.specs.Prelude.{◌≡◌, ◌+◌, ◌-◌, ◌<◌, ◌≤◌, min, length};
ghost use Rattle.settings.specs.Sizes.{depth};
ghost use Rattle.superframe.specs.Memory.{slot_size};
ghost use Rattle.superframe.specs.Interleaving.{sent_row, taken};
ghost use Rattle.superframe.specs.Code.{progress_of};
ghost use Rattle.cellmemory.specs.Clauses.{RowLent, RowRoom, RowOrder, row_over, Goes, bytes_from, next_state, previous, cell_after};

use block::buffers::MOST_CELLS;
use cellbytes::cells::{cell_byte, to_numbers};
use interleaver::table::make_places;
use lists::buffers::buffer;
use partlengths::tables;
use pointtests::tests::next_modulo;
use settings::{Settings, answers};
use superframe::State;

// The multiplication of the cell interleaver: t = 5.
const T: usize = 5;

// The numbers of a row and of a multiplex frame's cells.
#[tactic(auto, using(partlengths::proofs::Counts::mux_low), unfolding(settings::specs::Lengths::n_mux, superframe::specs::Memory::slot_size))]
pub fn slot_size(s: Settings) -> usize
    ensures { result ≡ slot_size s }
{
    2 * tables::n_mux(s.mode, s.occupancy)
}

// Where the slot before a slot begins, of the place in memory where the slot begins; before the first comes the last.
fn slot_before(n: usize, last: usize, at: usize) -> usize
    ensures { result ≡ previous n last at }
{
    if at < n {
        return last;
    }
    at - n
}

// The count after so many more frames: it stops at D - 1.
pub fn count_after(depth: usize, count: usize, frames: usize) -> usize
    requires { (count < depth) × (depth ≤ 5) × (frames ≤ 3) }
    ensures { result ≡ min (count + frames) (depth - 1) }
{
    (count + frames).min(depth - 1)
}

// The state after a frame: the position goes on to the next slot, and the count stops at D - 1.
pub fn next_state(state: State) -> State
    requires { (state.position < depth state.scheme.settings) × (state.count < depth state.scheme.settings) }
    ensures { result ≡ next_state state }
{
    let scheme = state.scheme;
    let depth = answers::depth(scheme.settings);
    let position = next_modulo(depth, state.position as usize);
    let count = count_after(depth, state.count as usize, 1);
    State {
        scheme,
        position: position as u8,
        count: count as u8,
    }
}

// The places of a row's cells: a super frame's three rows have the same.
pub fn row_places(s: Settings, out: &mut [u16])
    requires { RowRoom s out.old }
    ensures row_order { RowOrder s out.new }
    ensures out_after { out.new ≡ row_over s out.old }
{
    let n = tables::n_mux(s.mode, s.occupancy);
    make_places(T, n, &mut out[0..n + 1]);
}

// The bytes of a row's cells, each from the slot that its delay leads back to.
fn gather_row(position: usize, places: &[u16], memory: &[u8], out: &mut [u8])
    requires { Goes (length out.old) position places.now memory.now }
    ensures { out.new ≡ bytes_from memory.now position (length out.old) }
{
    let n = out.len();
    let last = memory.len() - n;
    let mut at = position * n;
    for i in 0..n {
        let p = places[i] as usize;
        out[i] = memory[at + p];
        at = slot_before(n, last, at);
    }
}

// The sent cells of a frame whose own cells stand in memory at the position: what memory holds, whatever the count. Many bytes become numbers at once.
pub fn send_row(state: State, places: &[u16], memory: &[u8], out: &mut [i16])
    requires { RowLent state memory.now out.old × RowOrder state.scheme.settings places.now }
    ensures { out.new ≡ sent_row state.scheme.settings memory.now state.position }
{
    let mut cells: [u8; MOST_CELLS] = buffer(0);
    let n = out.len() / 2;
    gather_row(state.position as usize, places, memory, &mut cells[0..n]);
    to_numbers(&cells[0..n], out);
}

// A cell of a row put into its place in memory, unless it is of a frame before the first.
#[tactic(auto, unfolding(crate::specs::Clauses::cell_after))]
fn take_cell(delay: usize, count: usize, re: i16, im: i16, cell: &mut u8)
    ensures { cell.new ≡ cell_after delay count re im cell.old }
{
    if count < delay {
        return;
    }
    *cell = cell_byte(re, im);
}

// The numbers of a row put where the coder took them. Memory has as many slots as the depth.
pub fn take_row(state: State, places: &[u16], row: &[i16], memory: &mut [u8])
    requires { RowLent state memory.old row.now × RowOrder state.scheme.settings places.now }
    ensures { memory.new ≡ taken state.scheme.settings (progress_of state memory.old) row.now }
{
    let n = row.len() / 2;
    let depth = memory.len() / n;
    let last = memory.len() - n;
    let count = state.count as usize;
    let position = state.position as usize;
    let mut at = position * n;
    let mut delay = 0;
    for i in 0..n {
        let p = places[i] as usize;
        let k = 2 * i;
        take_cell(delay, count, row[k], row[k + 1], &mut memory[at + p]);
        at = slot_before(n, last, at);
        delay = next_modulo(depth, delay);
    }
}
