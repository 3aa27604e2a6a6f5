// The kinds of the places of a super frame.
// Stays, in this module: mode and symbol stand apart; lists of carriers go by the mode alone, so that a struct of both would be built for each symbol
// and taken apart again for each list (`paint(at.mode, ..)`), and the row that is lent would stand beside it as now.
ghost use Rattle.std.specs.Prelude.{◌≡◌, ◌<◌, replicate};
ghost use Rattle.lists.specs.Lists.{table};
ghost use Rattle.kinds.specs.Carriers.{lower, carriers};
ghost use Rattle.kinds.specs.References.{time, is_gain};
ghost use Rattle.kinds.specs.Kinds.{number, has, data_kind, kind_of};
ghost use Rattle.kinds.specs.Numbered.{mode_number, mode_of, occupancy_of};
ghost use Rattle.kinds.specs.Places.{grid_kinds};
ghost use Rattle.kinds.specs.Clauses.{carrier_list, painted, painted_symbol, SymbolFits, KindsFit};

use crate::pairings::{Mode, Pairing};
use crate::{Kind, tables};

// Carriers -120 to 350.
pub const ROW: usize = 471;

// The places of the greatest grid, mode A with occupancy 5.
pub const MOST_PLACES: usize = 20745;

// Paints the carriers of one of the mode's lists.
fn paint(mode: Mode, list: usize, kind: Kind, row: &mut [u8; ROW])
    requires { list < 27 }
    ensures { row.new ≡ painted (has (carrier_list (mode_number mode) list)) (number kind) row.old }
{
    let carriers = tables::listed(mode.number(), list);
    let number = kind.number();
    for &carrier in carriers {
        row[carrier as usize] = number;
    }
}

// Paints the gain references of a symbol.
fn paint_gain(mode: Mode, symbol: usize, row: &mut [u8; ROW])
    ensures { row.new ≡ painted (is_gain (mode_number mode) symbol) 3 row.old }
{
    let number = Kind::Gain.number();
    for k in (tables::offset(mode, symbol)..row.len()).step_by(tables::spacing(mode)) {
        row[k] = number;
    }
}

// Paints the time references, which are in the first symbol of a frame.
fn paint_time(mode: Mode, symbol: usize, row: &mut [u8; ROW])
    ensures { row.new ≡ painted (has (time (mode_number mode) symbol)) 2 row.old }
{
    if symbol != 0 {
        return;
    }
    paint(mode, tables::TIME_LIST, Kind::Time, row);
}

// SDC in the SDC symbols, otherwise MSC.
fn data_kind(mode: Mode, frame: usize, symbol: usize) -> Kind
    ensures { number result ≡ data_kind (mode_number mode) frame symbol }
{
    if frame != 0 {
        return Kind::Msc;
    }
    if symbol < tables::sdc_symbols(mode) {
        Kind::Sdc
    } else {
        Kind::Msc
    }
}

// A row of data, over which all else is painted.
fn data_row(kind: Kind) -> [u8; 471]
    ensures { result ≡ replicate 471 (number kind) }
{
    [kind.number(); ROW]
}

// All that goes before data, what goes first painted last.
fn paint_symbol(mode: Mode, symbol: usize, row: &mut [u8; ROW])
    requires { symbol < 24 }
    ensures { row.new ≡ painted_symbol (mode_number mode) symbol row.old }
{
    paint(mode, tables::FAC_LISTS + symbol, Kind::Fac, row);
    paint_gain(mode, symbol, row);
    paint_time(mode, symbol, row);
    paint(mode, tables::FREQUENCY_LIST, Kind::Frequency, row);
    paint(mode, tables::UNUSED_LIST, Kind::Empty, row);
}

// The kinds of a symbol's places.
fn symbol_kinds(p: Pairing, frame: usize, symbol: usize, out: &mut [u8])
    requires { SymbolFits (mode_of p) (occupancy_of p) symbol out.old }
    ensures { out.new ≡ table (kind_of (mode_of p) frame symbol) (lower (mode_of p) (occupancy_of p)) (carriers (mode_of p) (occupancy_of p)) }
{
    let mut row = data_row(data_kind(p.mode, frame, symbol));
    paint_symbol(p.mode, symbol, &mut row);
    let first = tables::lower(p);
    let end = first + out.len();
    out.copy_from_slice(&row[first..end]);
}

// The kinds of all places, symbol after symbol.
pub fn grid_kinds(mode: u8, occupancy: u8, out: &mut [u8])
    requires { KindsFit mode occupancy out.old }
    ensures { out.new ≡ grid_kinds mode occupancy }
{
    let pairing = Pairing::numbered(mode, occupancy);
    let symbols = tables::frame_symbols(pairing.mode);
    let carriers = tables::carriers(pairing);
    for n in 0..3 * symbols {
        symbol_kinds(
            pairing,
            n / symbols,
            n % symbols,
            &mut out[n * carriers..n * carriers + carriers],
        );
    }
}
