// The calls: sizes, place and take. 02, S-4.
// Stays, in this module: buffers stand one by one; with a struct of `&mut` a clause must also say that each reference is still the same one.
ghost use Rattle.std.specs.Prelude.{◌≡◌, length};
ghost use Rattle.placing.specs.Cells.{placed, taken};
ghost use Rattle.refusal.specs.Numbers.{answer, number};
ghost use Rattle.settingbytes.specs.Numbers.{yielded};
ghost use Rattle.grid.specs.Calls.{kinds, grid_sizes, grid_sizes_into, place_of, take_of};
ghost use Rattle.grid.specs.Clauses.{lengths_refusal, CallFits, sizes_yield, place_yield, take_yield};
ghost use Rattle.placing.specs.Clauses.{cells_from};

use crate::GridSizes;
use kinds::pairings::Pairing;
use kinds::{rows, tables};
use lists::buffers::buffer;
use partlengths::tables::{FAC_NUMBERS, n_sdc, n_sfa};
use placing::cells;
use refusal::Refusal;
use settings::{Settings, refusals};

// The numbers of three FAC blocks.
const FAC_LENGTH: usize = 3 * FAC_NUMBERS;

// Symbols, carriers and numbers of a grid.
#[tactic(auto, using(refusal::proofs::Positive::number_positive), unfolding(crate::specs::Calls::grid_sizes, crate::specs::Calls::no_grid))]
pub fn sizes(s: Settings) -> Result<GridSizes, Refusal>
    ensures { sizes_yield result ≡ grid_sizes s }
{
    refusals::check(s)?;
    let pairing = Pairing::numbered(s.mode, s.occupancy);
    let symbols = 3 * tables::frame_symbols(pairing.mode);
    let carriers = tables::carriers(pairing);
    Ok(GridSizes {
        symbols: symbols as u32,
        carriers: carriers as u32,
        numbers: (3 * (symbols * carriers)) as u32,
    })
}

// The sizes into the caller's numbers, which a refusal leaves as they were.
// Stays: `put_sizes` writes other fields; one function for both would be handed them as an array, and save `copy_from_slice` alone.
#[tactic(auto, using(refusal::proofs::Positive::number_positive), unfolding(crate::specs::Calls::grid_sizes_into))]
pub fn put_grid_sizes(sizes: Result<GridSizes, Refusal>, numbers: &mut [u32]) -> Result<(), Refusal>
    requires { length numbers.old ≡ 3 }
    ensures { yielded (answer result) numbers.new ≡ grid_sizes_into (sizes_yield sizes) numbers.old }
{
    let z = sizes?;
    numbers.copy_from_slice(&[z.symbols, z.carriers, z.numbers]);
    Ok(())
}

// Whether a call is refused: by 1 to 7, by the refusal for cells of the wrong length, or by 17, lowest number first.
// Stays: four lengths as numbers; a struct of them would be built by both callers from the same four `len`, and be taken apart here.
fn check(
    s: Settings,
    cells: Refusal,
    fac: usize,
    sdc: usize,
    msc: usize,
    grid: usize,
) -> Result<(), Refusal>
    ensures { answer result ≡ lengths_refusal (number cells) s fac sdc msc grid }
{
    let z = sizes(s)?;
    let sdc_fits = sdc == 2 * n_sdc(s.mode, s.occupancy);
    let msc_fits = msc == 2 * n_sfa(s.mode, s.occupancy);
    if !((fac == FAC_LENGTH) & (sdc_fits & msc_fits)) {
        return Err(cells);
    }
    if grid != z.numbers as usize {
        return Err(Refusal::GridLength);
    }
    Ok(())
}

// A call that no number refuses: the kinds of all places first, and then the cells by them.
fn place_accepted(s: Settings, fac: &[i16], sdc: &[i16], msc: &[i16], grid: &mut [i16])
    requires { CallFits s (cells_from fac.now sdc.now msc.now) grid.old }
    ensures { grid.new ≡ placed (kinds s) (cells_from fac.now sdc.now msc.now) }
{
    let mut places: [u8; rows::MOST_PLACES] = buffer(0);
    let n = grid.len() / 3;
    rows::grid_kinds(s.mode, s.occupancy, &mut places[0..n]);
    cells::place_cells(&places[0..n], fac, sdc, msc, grid);
}

// The same off a grid.
// Stays: placing writes the grid and taking the cells, so that one function for both would take a closure over all buffers.
fn take_accepted(s: Settings, grid: &[i16], fac: &mut [i16], sdc: &mut [i16], msc: &mut [i16])
    requires { CallFits s (cells_from fac.old sdc.old msc.old) grid.now }
    ensures { cells_from fac.new sdc.new msc.new ≡ taken (kinds s) grid.now }
{
    let mut places: [u8; rows::MOST_PLACES] = buffer(0);
    let n = grid.len() / 3;
    rows::grid_kinds(s.mode, s.occupancy, &mut places[0..n]);
    cells::take_all(&places[0..n], grid, fac, sdc, msc);
}

// Cells onto a grid; a refusal leaves the grid as it was.
#[tactic(auto, using(refusal::proofs::Positive::number_positive))]
pub fn place(
    s: Settings,
    fac: &[i16],
    sdc: &[i16],
    msc: &[i16],
    grid: &mut [i16],
) -> Result<(), Refusal>
    ensures { place_yield (answer result) grid.new ≡ place_of s (cells_from fac.now sdc.now msc.now) grid.old }
{
    check(
        s,
        Refusal::InputLength,
        fac.len(),
        sdc.len(),
        msc.len(),
        grid.len(),
    )?;
    place_accepted(s, fac, sdc, msc, grid);
    Ok(())
}

// Cells off a grid; a refusal leaves the cells as they were.
// Stays: placing writes the grid and taking the cells, so that one function for both would take a closure over all buffers.
#[tactic(auto, using(refusal::proofs::Positive::number_positive))]
pub fn take(
    s: Settings,
    grid: &[i16],
    fac: &mut [i16],
    sdc: &mut [i16],
    msc: &mut [i16],
) -> Result<(), Refusal>
    ensures { take_yield (answer result) fac.new sdc.new msc.new
        ≡ take_of s grid.now (cells_from fac.old sdc.old msc.old) }
{
    check(
        s,
        Refusal::OutputLength,
        fac.len(),
        sdc.len(),
        msc.len(),
        grid.len(),
    )?;
    take_accepted(s, grid, fac, sdc, msc);
    Ok(())
}
