// How many bytes the jobs take and give.
ghost use Rattle.std.specs.Prelude.{◌≡◌, Ok};
ghost use Rattle.settings.specs.Sizes.{sizes_of, sizes_yield};
ghost use Rattle.jobs.specs.SuperFrame.{blocks_length, cells_length, grid_length, input_length, output_length};
ghost use Rattle.jobs.specs.Clauses.{Rooms, unnumbered};

use console::Job;
use partlengths::tables::{FAC_BYTES, FAC_NUMBERS};
use settings::{Settings, Sizes, answers};

// Three FAC blocks of a super frame: their bytes, and the numbers of their cells.
pub const FAC_LENGTH: usize = 3 * FAC_BYTES;

pub const FAC_CELLS_LENGTH: usize = 3 * FAC_NUMBERS;

// What `read-on` writes before each super frame: a byte for each block or finished frame.
pub const LOST_BYTES: usize = 7;

// What a program lends for a super frame of settings: bytes of input, and bytes of memory.
#[derive(Clone, Copy)]
pub struct Space {
    pub input: usize,
    pub memory: usize,
}

// The bytes of a super frame's blocks.
#[tactic(auto, unfolding(crate::specs::SuperFrame::blocks_length))]
fn blocks_length(z: Sizes) -> usize
    ensures { result ≡ blocks_length (sizes_yield (Ok z)) }
{
    FAC_LENGTH + (z.sdcbytes as usize + z.mscbytes as usize)
}

// The bytes of its cells.
#[tactic(auto, unfolding(crate::specs::SuperFrame::cells_length))]
fn cells_length(z: Sizes) -> usize
    ensures { result ≡ cells_length (sizes_yield (Ok z)) }
{
    2 * (z.facnumbers as usize + (z.sdcnumbers as usize + z.mscnumbers as usize))
}

// The bytes of a grid.
#[tactic(auto, unfolding(crate::specs::SuperFrame::grid_length, grid::specs::Calls::no_grid))]
pub fn grid_length(s: Settings) -> usize
    ensures { result ≡ grid_length s }
{
    grid::calls::sizes(s).map_or(0, |z| 2 * z.numbers as usize)
}

// What comes in for a super frame, and the most that goes out.
#[tactic(auto, unfolding(crate::specs::SuperFrame::input_length))]
pub fn input_length(job: Job, z: Sizes, grid: usize) -> usize
    ensures { result ≡ input_length job (sizes_yield (Ok z)) grid }
{
    // Stays: the job comes from the command line as a value, so that a `match` says its length, as the definition does.
    match job {
        Job::Code => blocks_length(z),
        Job::Read | Job::ReadOn | Job::Grid => cells_length(z),
        Job::Ungrid => grid,
    }
}

#[tactic(auto, unfolding(crate::specs::SuperFrame::output_length, crate::specs::SuperFrame::blocks_length))]
pub fn output_length(job: Job, z: Sizes, grid: usize) -> usize
    ensures { result ≡ output_length job (sizes_yield (Ok z)) grid }
{
    // Stays: the job comes from the command line as a value, so that a `match` says its length, as the definition does.
    match job {
        Job::Code | Job::Ungrid => cells_length(z),
        Job::Read => blocks_length(z) + 1,
        Job::ReadOn => LOST_BYTES + (blocks_length(z) + 1),
        Job::Grid => grid,
    }
}

// The sizes of settings, zeros where they are refused.
#[tactic(auto, unfolding(settings::specs::Sizes::no_sizes))]
fn sizes_or_none(s: Settings) -> Sizes
    ensures { unnumbered (sizes_yield (Ok result)) ≡ unnumbered (sizes_of s) }
{
    answers::sizes(s).unwrap_or_default()
}

// The part of the largest buffers that settings need.
pub fn room(job: Job, s: Settings) -> Space
    ensures { Rooms job s result }
{
    let z = sizes_or_none(s);
    Space {
        input: input_length(job, z, grid_length(s)),
        memory: z.memory as usize,
    }
}
