// Writes a digest of refusals, lengths and sizes for each mode, occupancy and MSC mode, to be compared with another program's.
#![tactic(auto)]

use settings::{Lengths, Settings, answers};
use vectors::digests::taken;
use vectors::text::print;

const XS: [u16; 8] = [0, 1, 2, 285, 1000, 2000, 3577, 65535];

// All that is answered for settings: the refusal's number, five lengths and six sizes, which are 0 where settings are refused.
fn answered(s: Settings) -> [u32; 12] {
    let (refusal, lengths) = match answers::lengths(s) {
        Ok(lengths) => (0, lengths),
        Err(refusal) => (refusal.number(), Lengths::default()),
    };
    let sizes = answers::sizes(s).unwrap_or_default();
    [
        u32::from(refusal),
        u32::from(lengths.n1),
        u32::from(lengths.n2),
        u32::from(lengths.l1),
        u32::from(lengths.l2),
        u32::from(lengths.vspp),
        sizes.sdcbytes,
        sizes.mscbytes,
        sizes.facnumbers,
        sizes.sdcnumbers,
        sizes.mscnumbers,
        sizes.memory,
    ]
}

// The digest with all that is answered for settings.
fn one(mut d: u64, s: Settings) -> u64 {
    for n in answered(s) {
        d = taken(d, u64::from(n));
    }
    d
}

// Settings with eight values of x, allowed and not, under every value of the other fields, each one past its last allowed.
fn some_x(mut d: u64, s: Settings) -> u64 {
    for levela in 0..5 {
        for levelb in 0..5 {
            for vspp in 0..5 {
                for sdc in 0..3 {
                    for interleaving in 0..3 {
                        for x in XS {
                            d = one(
                                d,
                                Settings {
                                    levela,
                                    levelb,
                                    vspp,
                                    x,
                                    sdc,
                                    interleaving,
                                    ..s
                                },
                            );
                        }
                    }
                }
            }
        }
    }
    d
}

// Settings with every x up to one past the most cells, under every protection level of part A.
fn every_x(mut d: u64, s: Settings) -> u64 {
    for levela in 0..5 {
        for x in 0..3601 {
            d = one(d, Settings { levela, x, ..s });
        }
    }
    d
}

// The digest of all settings with a mode, occupancy and MSC mode.
fn digest(mode: u8, occupancy: u8, msc: u8) -> u64 {
    let s = Settings {
        mode,
        occupancy,
        msc,
        levela: 0,
        levelb: 0,
        vspp: 0,
        x: 0,
        sdc: 0,
        interleaving: 0,
    };
    every_x(some_x(0, s), s)
}

// A line for each mode, occupancy and MSC mode, allowed and not.
fn main() {
    for mode in 0..5 {
        for occupancy in 0..7 {
            for msc in 0..5 {
                let digest = digest(mode, occupancy, msc);
                print(format_args!("{mode} {occupancy} {msc} {digest}\n"));
            }
        }
    }
}
