// Writes the kinds of a super frame's places as `place` marks them, occupancy 3 of each mode: the mode's letter, and a line of digits for each symbol.
#![tactic(auto)]

ghost use Rattle.std.specs.Prelude.{◌<◌};

use grid::calls::place;
use partlengths::tables::FAC_NUMBERS;
use settings::Settings;
use vectors::text::print;

// A kind as a digit.
fn write_kind(kind: i16) {
    match kind {
        0..=6 => print(kind),
        _ => print("?"),
    }
}

// A grid's kinds, so many carriers a line.
fn write_kinds(carriers: u8, grid: &[i16])
    requires { 0 < carriers }
{
    for symbol in grid.chunks(3 * usize::from(carriers)) {
        for place in symbol.chunks(3) {
            write_kind(place[0]);
        }
        print("\n");
    }
}

// The grid of a mode with occupancy 3, of so many numbers in the SDC's cells, the MSC's and the grid: blank cells, of which only the kinds are written.
// No other setting moves a place.
fn write_mode<const SDC: usize, const MSC: usize, const GRID: usize>(mode: u8, carriers: u8)
    requires { (0 < carriers) × (SDC < 65536) × (MSC < 65536) × (GRID < 65536) }
{
    let settings = Settings {
        mode,
        occupancy: 3,
        msc: 0,
        levela: 0,
        levelb: 0,
        vspp: 0,
        x: 0,
        sdc: 0,
        interleaving: 0,
    };
    let mut grid = [0i16; GRID];
    let _ = place(
        settings,
        &[0; 3 * FAC_NUMBERS],
        &[0; SDC],
        &[0; MSC],
        &mut grid,
    );
    write_kinds(carriers, &grid);
}

fn main() {
    print("A\n");
    write_mode::<810, 17754, 30915>(0, 229);
    print("B\n");
    write_mode::<644, 14026, 27945>(1, 207);
    print("C\n");
    write_mode::<576, 11064, 25020>(2, 139);
    print("D\n");
    write_mode::<304, 7358, 19224>(3, 89);
}
