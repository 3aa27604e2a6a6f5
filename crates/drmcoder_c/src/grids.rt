// The calls drm_grid_sizes, drm_grid_place and drm_grid_take.
// Stays, in this module: the parameters are those of the C functions, in their order.
ghost use Rattle.std.specs.Prelude.{◌≡◌};
ghost use Rattle.grid.specs.Clauses.{place_yield, take_yield};
ghost use Rattle.placing.specs.Clauses.{cells_from};
ghost use Rattle.settingbytes.specs.Numbers.{yielded};
ghost use Rattle.drmcoder.specs.Grids.{grid_sizes_bytes, place_bytes, take_bytes};

// Symbols of a super frame, carriers of a symbol, numbers of a grid.
#[unsafe(no_mangle)]
pub extern "C" fn drm_grid_sizes(settings: &[u8], sizes: &mut [u32]) -> u8
    ensures { yielded result sizes.new ≡ grid_sizes_bytes settings.now sizes.old }
{
    drmcoder::grids::drm_grid_sizes(settings, sizes)
}

// The cells of a super frame onto a grid.
#[unsafe(no_mangle)]
pub extern "C" fn drm_grid_place(
    settings: &[u8],
    faccells: &[i16],
    sdccells: &[i16],
    msccells: &[i16],
    grid: &mut [i16],
) -> u8
    ensures { place_yield result grid.new ≡ place_bytes settings.now (cells_from faccells.now
        sdccells.now msccells.now) grid.old }
{
    drmcoder::grids::drm_grid_place(settings, faccells, sdccells, msccells, grid)
}

// The cells of a super frame off a grid.
#[unsafe(no_mangle)]
pub extern "C" fn drm_grid_take(
    settings: &[u8],
    grid: &[i16],
    faccells: &mut [i16],
    sdccells: &mut [i16],
    msccells: &mut [i16],
) -> u8
    ensures { take_yield result faccells.new sdccells.new msccells.new
        ≡ take_bytes settings.now grid.now (cells_from faccells.old sdccells.old
        msccells.old) }
{
    drmcoder::grids::drm_grid_take(settings, grid, faccells, sdccells, msccells)
}
