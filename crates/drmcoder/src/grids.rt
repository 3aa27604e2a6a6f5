// The calls drm_grid_sizes, drm_grid_place and drm_grid_take.
// Stays, in this module: the parameters are those of the C functions, in their order.
ghost use Rattle.std.specs.Prelude.{◌≡◌};
ghost use Rattle.refusal.specs.Numbers.{answer};
ghost use Rattle.grid.specs.Clauses.{place_yield, take_yield};
ghost use Rattle.placing.specs.Clauses.{cells_from};
ghost use Rattle.settingbytes.specs.Numbers.{yielded};
ghost use Rattle.drmcoder.specs.Grids.{grid_sizes_bytes, place_bytes, take_bytes};

use grid::calls;
use refusal::{Refusal, answer};
use settingbytes::bytes::taken;

// Symbols of a super frame, carriers of a symbol, numbers of a grid.
#[tactic(auto, unfolding(crate::specs::Grids::grid_sizes_bytes, settingbytes::specs::Bytes::taken))]
fn grid_sizes_bytes(settings: &[u8], sizes: &mut [u32]) -> Result<(), Refusal>
    ensures { yielded (answer result) sizes.new ≡ grid_sizes_bytes settings.now sizes.old }
{
    let s = taken(settings)?;
    if sizes.len() != 3 {
        return Err(Refusal::FixedLength);
    }
    calls::put_grid_sizes(calls::sizes(s), sizes)
}

// The same by its number for C.
pub fn drm_grid_sizes(settings: &[u8], sizes: &mut [u32]) -> u8
    ensures { yielded result sizes.new ≡ grid_sizes_bytes settings.now sizes.old }
{
    answer(grid_sizes_bytes(settings, sizes))
}

// The cells of a super frame onto a grid.
#[tactic(auto, unfolding(crate::specs::Grids::place_bytes, settingbytes::specs::Bytes::taken))]
fn place_bytes(
    settings: &[u8],
    faccells: &[i16],
    sdccells: &[i16],
    msccells: &[i16],
    grid: &mut [i16],
) -> Result<(), Refusal>
    ensures { place_yield (answer result) grid.new ≡ place_bytes settings.now (cells_from faccells.now
        sdccells.now msccells.now) grid.old }
{
    calls::place(taken(settings)?, faccells, sdccells, msccells, grid)
}

// The same by its number for C.
pub fn drm_grid_place(
    settings: &[u8],
    faccells: &[i16],
    sdccells: &[i16],
    msccells: &[i16],
    grid: &mut [i16],
) -> u8
    ensures { place_yield result grid.new ≡ place_bytes settings.now (cells_from faccells.now
        sdccells.now msccells.now) grid.old }
{
    answer(place_bytes(settings, faccells, sdccells, msccells, grid))
}

// The cells of a super frame off a grid.
#[tactic(auto, unfolding(crate::specs::Grids::take_bytes, settingbytes::specs::Bytes::taken))]
fn take_bytes(
    settings: &[u8],
    grid: &[i16],
    faccells: &mut [i16],
    sdccells: &mut [i16],
    msccells: &mut [i16],
) -> Result<(), Refusal>
    ensures { take_yield (answer result) faccells.new sdccells.new msccells.new
        ≡ take_bytes settings.now grid.now (cells_from faccells.old sdccells.old
        msccells.old) }
{
    calls::take(taken(settings)?, grid, faccells, sdccells, msccells)
}

// The same by its number for C.
pub fn drm_grid_take(
    settings: &[u8],
    grid: &[i16],
    faccells: &mut [i16],
    sdccells: &mut [i16],
    msccells: &mut [i16],
) -> u8
    ensures { take_yield result faccells.new sdccells.new msccells.new
        ≡ take_bytes settings.now grid.now (cells_from faccells.old sdccells.old
        msccells.old) }
{
    answer(take_bytes(settings, grid, faccells, sdccells, msccells))
}
