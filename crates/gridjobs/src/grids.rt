// A super frame of the jobs `grid` and `ungrid`. 02, S-4.
// Stays, in this module: `Lent` ties `state`, `z` and `bytes` to the room of `out`, so that a struct of the three would keep that clause at each function.
ghost use Rattle.std.specs.Prelude.{◌≡◌, List, ℕ, ◌*◌, ◌≤◌, length, IfOk, Ok};
ghost use Rattle.refusal.specs.Numbers.{answer};
ghost use Rattle.settings.specs.Sizes.{sizes_yield};
ghost use Rattle.console.specs.declared.Job.{Job};
ghost use Rattle.deskcells.specs.Cells.{cell_bytes};
ghost use Rattle.jobs.specs.Clauses.{Lent};
ghost use Rattle.jobs.specs.SuperFrame.{job_yield, answered, job_call};

use deskcells::numbers::put_cells;
use grid::calls::{place, take};
use jobs::buffers::{MOST_GRID_NUMBERS, MOST_MSC_NUMBERS, MOST_SDC_NUMBERS, numbers_in};
use jobs::sizes::{FAC_CELLS_LENGTH, grid_length};
use jobs::written::{refused, write_cells};
use jobs::{Step, buffers};
use refusal::Refusal;
use settings::Sizes;
use superframe::State;

// What the output is after placing: the bytes of the grid, or nothing where the call was refused.
fn write_grid(placed: Result<(), Refusal>, state: State, grid: &[i16], out: &mut [u8]) -> Step
    requires { 2 * length grid.now ≤ length out.old }
    ensures by_index { (memory : List ℕ) → job_yield result memory out.new
        ≡ answered (answer placed) state memory (cell_bytes grid.now) out.old }
    ensures length_in_bounds { IfOk result.made (λ n. n ≤ length out.old) }
{
    match placed {
        Ok(()) => {
            put_cells(grid, out, 0);
            Step {
                made: Ok(2 * grid.len()),
                state,
            }
        }
        Err(refusal) => refused(refusal, state),
    }
}

// The job `grid` on buffers of the right lengths.
pub fn place_bytes(state: State, z: Sizes, bytes: &[u8], out: &mut [u8]) -> Step
    requires { Lent Job.Grid state (sizes_yield (Ok z)) bytes.now out.old }
    ensures by_index { (memory : List ℕ) → job_yield result memory out.new ≡ job_call Job.Grid state memory bytes.now out.old }
    ensures length_in_bounds { IfOk result.made (λ n. n ≤ length out.old) }
{
    let cells = numbers_in(bytes);
    let mut most_grid = buffers::numbers::<MOST_GRID_NUMBERS>();
    let n = grid_length(state.scheme.settings) / 2;
    let grid = &mut most_grid[0..n];
    let (first, rest) = cells[0..bytes.len() / 2].split_at(FAC_CELLS_LENGTH);
    let (second, third) = rest.split_at(z.sdcnumbers as usize);
    let placed = place(state.scheme.settings, first, second, third, grid);
    write_grid(placed, state, grid, out)
}

// The job `ungrid` on buffers of the right lengths.
pub fn take_bytes(state: State, z: Sizes, bytes: &[u8], out: &mut [u8]) -> Step
    requires { Lent Job.Ungrid state (sizes_yield (Ok z)) bytes.now out.old }
    ensures by_index { (memory : List ℕ) → job_yield result memory out.new ≡ job_call Job.Ungrid state memory bytes.now out.old }
    ensures length_in_bounds { IfOk result.made (λ n. n ≤ length out.old) }
{
    let grid = numbers_in(bytes);
    let mut fac = buffers::numbers::<FAC_CELLS_LENGTH>();
    let mut most_sdc = buffers::numbers::<MOST_SDC_NUMBERS>();
    let mut most_msc = buffers::numbers::<MOST_MSC_NUMBERS>();
    let sdc = &mut most_sdc[0..z.sdcnumbers as usize];
    let msc = &mut most_msc[0..z.mscnumbers as usize];
    let end = bytes.len() / 2;
    let taken = take(state.scheme.settings, &grid[0..end], &mut fac, sdc, msc);
    write_cells(taken.and(Ok(state)), state, &fac, sdc, msc, out)
}
