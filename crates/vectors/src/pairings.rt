// The permitted pairs of mode and occupancy, and the greatest X.
ghost use Rattle.std.specs.Prelude.{◌≡◌};
ghost use Rattle.vectors.specs.Pairings.{settings_of, with_x, with_sdc, GreatestX};

use settings::{Settings, refusals};

// Mode and occupancy by the pairing's index, in increasing order.
const PAIRINGS: [(u8, u8); 16] = [
    (0, 0),
    (0, 1),
    (0, 2),
    (0, 3),
    (0, 4),
    (0, 5),
    (1, 0),
    (1, 1),
    (1, 2),
    (1, 3),
    (1, 4),
    (1, 5),
    (2, 3),
    (2, 5),
    (3, 3),
    (3, 5),
];

// Settings of a pairing, MSC mode, levels and VSPP level; X, SDC mode and interleaving are 0.
#[tactic(auto, unfolding(crate::specs::Pairings::settings_of))]
pub fn settings_of(p: usize, msc: u8, levela: u8, levelb: u8, vspp: u8) -> Settings
    ensures { result ≡ settings_of p msc levela levelb vspp }
{
    let (mode, occupancy) = PAIRINGS[p % 16];
    Settings {
        mode,
        occupancy,
        msc,
        levela,
        levelb,
        vspp,
        x: 0,
        sdc: 0,
        interleaving: 0,
    }
}

// The settings with another X.
#[tactic(auto, unfolding(crate::specs::Pairings::with_x))]
pub fn with_x(s: Settings, x: u16) -> Settings
    ensures { result ≡ with_x s x }
{
    Settings { x, ..s }
}

// The settings with another SDC mode.
#[tactic(auto, unfolding(crate::specs::Pairings::with_sdc))]
pub fn with_sdc(s: Settings, sdc: u8) -> Settings
    ensures { result ≡ with_sdc s sdc }
{
    Settings { sdc, ..s }
}

// The greatest X that is not refused with the other settings.
pub fn largest(s: Settings) -> u16
    ensures { GreatestX s result }
{
    for x in 0..u16::MAX {
        if refusals::check(with_x(s, x + 1)).is_err() {
            return x;
        }
    }
    u16::MAX
}
