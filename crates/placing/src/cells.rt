// Cells placed on a grid, and taken off it.
// Stays, in this module: buffers stand one by one; with a struct of `&mut` a clause must also say that each reference is still the same one.
ghost use Rattle.std.specs.Prelude.{◌≡◌, get_or, pos};
ghost use Rattle.kinds.specs.Kinds.{number};
ghost use Rattle.placing.specs.Cells.{of_kind, placed, taken_of, taken};
ghost use Rattle.placing.specs.Clauses.{cells_from, GridFits, TakeFits, AllFit};

use kinds::Kind;

// A number of a buffer, 0 past its end.
// Stays: std's chain is the whole body; a function for this and for `packing`'s bits would only give the chain another name.
fn number_at(cells: &[i16], n: usize) -> i16
    ensures { result ≡ get_or cells.now n (pos 0) }
{
    cells.get(n).copied().unwrap_or(0)
}

// Number n of the cells that places of this kind have.
// Stays: kinds are compared by their numbers; `Kind::try_from` for each number of a place costs `drm_grid_place` a fifth more instructions.
// Stays: three slices; as a method of a struct of the three it takes 0.8 % more instructions of `grid::calls::place`.
#[tactic(auto, unfolding(crate::specs::Cells::of_kind, kinds::specs::Kinds::fac, kinds::specs::Kinds::sdc, kinds::specs::Kinds::msc))]
fn number_of(kind: u8, n: usize, fac: &[i16], sdc: &[i16], msc: &[i16]) -> i16
    ensures { result ≡ get_or (of_kind kind (cells_from fac.now sdc.now msc.now)) n (pos 0) }
{
    if kind == Kind::Fac.number() {
        number_at(fac, n)
    } else if kind == Kind::Sdc.number() {
        number_at(sdc, n)
    } else if kind == Kind::Msc.number() {
        number_at(msc, n)
    } else {
        0
    }
}

// Three numbers for each place. Of each kind it is counted how many places there were.
// Stays: the grid by index; of a slice whose chunks a loop has written a proof knows the length and no number.
pub fn place_cells(kinds: &[u8], fac: &[i16], sdc: &[i16], msc: &[i16], grid: &mut [i16])
    requires { GridFits kinds.now grid.old }
    ensures { grid.new ≡ placed kinds.now (cells_from fac.now sdc.now msc.now) }
{
    let mut counts = [0usize; 256];
    for (p, &kind) in kinds.iter().enumerate() {
        let i = counts[kind as usize];
        grid[3 * p] = kind as i16;
        grid[3 * p + 1] = number_of(kind, 2 * i, fac, sdc, msc);
        grid[3 * p + 2] = number_of(kind, 2 * i + 1, fac, sdc, msc);
        counts[kind as usize] = i + 1;
    }
}

// The cells of the places of a kind.
// Stays: the numbers taken are counted, since a place of another kind has none; of a slice whose chunks a loop has written a proof knows the length alone.
fn take_cells(kinds: &[u8], kind: Kind, grid: &[i16], out: &mut [i16])
    requires { TakeFits (number kind) kinds.now grid.now out.old }
    ensures { out.new ≡ taken_of (number kind) kinds.now grid.now }
{
    let mark = kind.number();
    let mut n = 0;
    for (p, &there) in kinds.iter().enumerate() {
        if there == mark {
            out[n] = grid[3 * p + 1];
            out[n + 1] = grid[3 * p + 2];
            n += 2;
        }
    }
}

// The cells of FAC, SDC and MSC.
pub fn take_all(kinds: &[u8], grid: &[i16], fac: &mut [i16], sdc: &mut [i16], msc: &mut [i16])
    requires { AllFit kinds.now grid.now (cells_from fac.old sdc.old msc.old) }
    ensures { cells_from fac.new sdc.new msc.new ≡ taken kinds.now grid.now }
{
    take_cells(kinds, Kind::Fac, grid, fac);
    take_cells(kinds, Kind::Sdc, grid, sdc);
    take_cells(kinds, Kind::Msc, grid, msc);
}
