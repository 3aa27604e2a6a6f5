// Writes the counts of annex J, tables J.1 to J.24: a line for each row, `J.` with the table's number and then its counts.
#![tactic(auto)]

use partlengths::{formulas, tables};
use settings::{Settings, answers};
use vectors::text::print;

// A count's place: its robustness mode, and its row and spectrum occupancy in a table.
#[derive(Clone, Copy)]
struct Place {
    mode: u8,
    row: u8,
    occupancy: u8,
}

// Which counts a table has. The tables come in groups of four, for modes A to D.
#[derive(Clone, Copy)]
enum Group {
    // The MSC with SM.
    Sm,
    // HMsym's very strongly protected part and its standard protected part.
    HmsymVspp,
    HmsymSpp,
    // HMmix's two.
    HmmixVspp,
    HmmixSpp,
    Sdc,
}

const GROUPS: [Group; 6] = [
    Group::Sm,
    Group::HmsymVspp,
    Group::HmsymSpp,
    Group::HmmixVspp,
    Group::HmmixSpp,
    Group::Sdc,
];

impl Group {
    // How many rows a table of the group has.
    fn rows(self) -> u8 {
        match self {
            Group::Sm => 6,
            Group::Sdc => 2,
            _ => 4,
        }
    }

    // Whether the group has a count for the mode's occupancy: hierarchical mapping begins with occupancy 2.
    fn uses(self, mode: u8, occupancy: u8) -> bool {
        if 2 <= mode {
            return occupancy == 3 || occupancy == 5;
        }
        match self {
            Group::Sm | Group::Sdc => true,
            _ => 2 <= occupancy,
        }
    }

    // The MSC mode of a row: SM has four rows of 64-QAM and two of 16-QAM.
    fn msc_mode(self, row: u8) -> u8 {
        match self {
            Group::Sm if row < 4 => 0,
            Group::Sm => 3,
            Group::HmsymVspp | Group::HmsymSpp => 2,
            _ => 1,
        }
    }

    // The bits of a frame without part A: those of the very strongly protected part, or those of part B.
    fn msc_bits(self, at: Place) -> usize {
        let Place {
            mode,
            row,
            occupancy,
        } = at;
        let level = row % 4;
        let strong = matches!(&self, Group::HmsymVspp | Group::HmmixVspp);
        let lengths = answers::lengths(Settings {
            mode,
            occupancy,
            msc: self.msc_mode(row),
            levela: 0,
            levelb: if strong { 0 } else { level },
            vspp: if strong { level } else { 0 },
            x: 0,
            sdc: 0,
            interleaving: 0,
        })
        .unwrap_or_default();
        usize::from(if strong { lengths.vspp } else { lengths.l2 })
    }

    // The bits of an SDC block or of a frame, as the group asks.
    fn count(self, at: Place) -> usize {
        match self {
            Group::Sdc => sdc_bits(at),
            _ => self.msc_bits(at),
        }
    }
}

// The bits of an SDC block: a row for 16-QAM and one for 4-QAM.
fn sdc_bits(at: Place) -> usize {
    let cells = tables::n_sdc(at.mode, at.occupancy);
    u16::try_from(cells).map_or(0, |n| formulas::sdc_bits(at.row, n))
}

// A row of a table: its name, and a count for each occupancy that the group uses.
fn write_row(table: usize, group: Group, mode: u8, row: u8) {
    print(format_args!("J.{table}"));
    for occupancy in 0..6 {
        if group.uses(mode, occupancy) {
            let at = Place {
                mode,
                row,
                occupancy,
            };
            print(format_args!(" {}", group.count(at)));
        }
    }
    print("\n");
}

fn main() {
    for (i, group) in GROUPS.iter().enumerate() {
        for mode in 0..4u8 {
            for row in 0..group.rows() {
                write_row(4 * i + mode as usize + 1, *group, mode, row);
            }
        }
    }
}
