// The tables of 001 clause 8. Carrier k is numbered 120 + k.
ghost use Rattle.std.specs.Prelude.{◌≡◌, ◌<◌};
ghost use Rattle.kinds.specs.Carriers.{frame_symbols, lower, upper, carriers};
ghost use Rattle.kinds.specs.References.{spacing, offset};
ghost use Rattle.kinds.specs.Control.{sdc_symbols};
ghost use Rattle.kinds.specs.Numbered.{mode_number, mode_of, occupancy_of};
ghost use Rattle.kinds.specs.Clauses.{carrier_list, RowOf90};

use crate::pairings::{Mode, Pairing};

// Table 80: symbols per transmission frame.
const FRAME_SYMBOLS: [usize; 4] = [15, 15, 20, 24];

// Clause 8.5.3.1.
const SDC_SYMBOLS: [usize; 4] = [2, 2, 3, 3];

// Table 82: rows for modes A to D, columns for occupancy 0 to 5.
const LOWER: [[usize; 6]; 4] = [
    [122, 122, 18, 6, 22, 10],
    [121, 121, 29, 17, 33, 21],
    [0, 0, 0, 51, 0, 53],
    [0, 0, 0, 76, 0, 77],
];

const UPPER: [[usize; 6]; 4] = [
    [222, 234, 222, 234, 434, 470],
    [211, 223, 211, 223, 399, 431],
    [0, 0, 0, 189, 0, 333],
    [0, 0, 0, 164, 0, 255],
];

// Table 90: the gain references of symbol s are the carriers k0 + x (s mod y) + spacing p, p any integer.
#[derive(Clone, Copy)]
struct GainReferences {
    k0: usize,
    x: usize,
    y: usize,
    spacing: usize,
}

const GAIN_REFERENCES: [GainReferences; 4] = [
    GainReferences {
        k0: 2,
        x: 4,
        y: 5,
        spacing: 20,
    },
    GainReferences {
        k0: 1,
        x: 2,
        y: 3,
        spacing: 6,
    },
    GainReferences {
        k0: 1,
        x: 2,
        y: 2,
        spacing: 4,
    },
    GainReferences {
        k0: 1,
        x: 1,
        y: 3,
        spacing: 3,
    },
];

// The lists of carriers for modes A to D: those of table 83, table 84, tables 86 to 89, and 24 rows of tables 93 to 96.
const CARRIERS: [[&[u8]; LISTS]; 4] = [
    [
        &[119, 120, 121],
        &[138, 174, 192],
        &[
            137, 138, 139, 141, 148, 149, 152, 153, 159, 160, 161, 173, 174, 175, 176, 180, 181,
            183, 191, 192, 193,
        ],
        &[],
        &[],
        &[146, 166, 186, 206],
        &[130, 150, 170, 190, 210],
        &[134, 142, 154, 182, 194, 214],
        &[146, 158, 178, 186, 198],
        &[142, 150, 162, 182, 190, 202],
        &[146, 154, 166, 186, 194, 206],
        &[130, 150, 158, 170, 178, 190, 198, 210],
        &[134, 142, 154, 162, 182, 194, 202, 214],
        &[146, 158, 166, 186, 206],
        &[130, 150, 170, 190, 210],
        &[134, 154, 194, 214],
        &[158, 178, 198],
        &[],
        &[],
        &[],
        &[],
        &[],
        &[],
        &[],
        &[],
        &[],
        &[],
    ],
    [
        &[120],
        &[136, 168, 184],
        &[
            134, 136, 138, 140, 144, 146, 152, 156, 162, 164, 168, 169, 170, 174, 176, 182, 184,
            186, 188,
        ],
        &[],
        &[],
        &[133, 145, 163, 175, 187],
        &[135, 147, 165, 177, 189],
        &[137, 149, 167, 179, 191],
        &[139, 151, 169, 181, 193],
        &[129, 141, 153, 171, 183, 195],
        &[131, 143, 155, 173, 185, 197],
        &[133, 145, 157, 175, 187, 199],
        &[135, 147, 159, 177, 189, 201],
        &[137, 149, 161, 179, 191, 203],
        &[139, 151, 163, 181, 193],
        &[141, 153, 165, 183, 195],
        &[143, 155, 167, 185, 197],
        &[],
        &[],
        &[],
        &[],
        &[],
        &[],
        &[],
        &[],
        &[],
        &[],
    ],
    [
        &[120],
        &[131, 153, 164],
        &[
            128, 130, 131, 132, 134, 136, 138, 142, 144, 148, 150, 152, 153, 156, 158, 162, 164,
            165, 166,
        ],
        &[],
        &[],
        &[],
        &[129, 141, 165, 177],
        &[143, 155, 167],
        &[133, 145, 157, 169],
        &[135, 147, 159, 171],
        &[125, 137, 149, 161, 173],
        &[127, 139, 151, 163, 175],
        &[129, 141, 165, 177],
        &[143, 155, 167],
        &[133, 145, 157, 169],
        &[135, 147, 159, 171],
        &[125, 137, 149, 161, 173],
        &[127, 139, 151, 163, 175],
        &[129, 141, 165, 177],
        &[143, 155, 167],
        &[133, 145, 157, 169],
        &[135, 147, 159, 171],
        &[],
        &[],
        &[],
        &[],
        &[],
    ],
    [
        &[120],
        &[127, 141, 148],
        &[
            125, 126, 127, 128, 129, 131, 132, 134, 135, 137, 138, 140, 141, 143, 144, 146, 147,
            148, 149, 150, 152,
        ],
        &[],
        &[],
        &[],
        &[129, 138, 147],
        &[130, 139],
        &[131, 140, 149],
        &[132, 150],
        &[133, 142, 151],
        &[125, 134, 143, 152],
        &[126, 135, 144, 153],
        &[136, 145, 154],
        &[128, 137, 146, 155],
        &[129, 138, 147, 156],
        &[130, 139, 157],
        &[131, 140, 149],
        &[132, 150],
        &[133, 142, 151],
        &[125, 134, 143, 152],
        &[126, 135, 144, 153],
        &[136, 145, 154],
        &[128, 137, 146, 155],
        &[129, 138, 147, 156],
        &[130, 139, 157],
        &[],
    ],
];

// Lists of a mode: unused carriers, frequency references, time references, FAC cells of symbol 0, 1, ..
pub const LISTS: usize = 27;

// Stays: lists have numbers, which are their places in the table; an enum would be numbered again in `listed`, and its variant for FAC cells
// would ask `symbol < 24` there, where the place asks `list < 27`, which a caller may count to by `LISTS`.
pub const UNUSED_LIST: usize = 0;

pub const FREQUENCY_LIST: usize = 1;

pub const TIME_LIST: usize = 2;

pub const FAC_LISTS: usize = 3;

// A mode's list of carriers.
// Stays: the mode by its number, which the list's number stands beside; docs/ARCHITECTURE.md names this function.
pub fn listed(mode: u8, list: usize) -> &'static [u8]
    requires { (mode < 4) × (list < 27) }
    ensures { result.now ≡ carrier_list mode list }
{
    CARRIERS[mode as usize][list]
}

// Symbols per transmission frame.
pub fn frame_symbols(mode: Mode) -> usize
    ensures { result ≡ frame_symbols (mode_number mode) }
{
    FRAME_SYMBOLS[mode.number() as usize]
}

// SDC symbols at the beginning of a super frame.
pub fn sdc_symbols(mode: Mode) -> usize
    ensures { result ≡ sdc_symbols (mode_number mode) }
{
    SDC_SYMBOLS[mode.number() as usize]
}

// k_min.
pub fn lower(p: Pairing) -> usize
    ensures { result ≡ lower (mode_of p) (occupancy_of p) }
{
    LOWER[p.mode.number() as usize][p.occupancy.number() as usize]
}

// k_max.
// Stays: one function for both look-ups would be handed the table and promise an entry of it, and `lower` and `upper` would say the same as now.
pub fn upper(p: Pairing) -> usize
    ensures { result ≡ upper (mode_of p) (occupancy_of p) }
{
    UPPER[p.mode.number() as usize][p.occupancy.number() as usize]
}

// Carriers of a symbol.
pub fn carriers(p: Pairing) -> usize
    ensures { result ≡ carriers (mode_of p) (occupancy_of p) }
{
    upper(p) + 1 - lower(p)
}

// The row of a mode in table 90.
fn gain_references(mode: Mode) -> GainReferences
    ensures { RowOf90 (mode_number mode) result }
{
    GAIN_REFERENCES[mode.number() as usize]
}

// Gain references of a symbol are so many carriers apart,
pub fn spacing(mode: Mode) -> usize
    ensures { result ≡ spacing (mode_number mode) }
{
    gain_references(mode).spacing
}

// and begin here.
pub fn offset(mode: Mode, symbol: usize) -> usize
    ensures { result ≡ offset (mode_number mode) symbol }
{
    let gains = gain_references(mode);
    (gains.k0 + gains.x * (symbol % gains.y)) % gains.spacing
}
