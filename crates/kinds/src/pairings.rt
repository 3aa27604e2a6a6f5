// Robustness modes and spectrum occupancies, and the numbers that settings have for them.
ghost use Rattle.std.specs.Prelude.{◌≡◌, ◌<◌};
ghost use Rattle.kinds.specs.Numbered.{mode_number, occupancy_number, Paired};

// The four robustness modes.
#[derive(Clone, Copy, Debug, PartialEq, Eq)]
pub enum Mode {
    A = 0,
    B = 1,
    C = 2,
    D = 3,
}

impl Mode {
    // The mode of a number.
    // Stays: four arms with the names of this enum; each enum with four numbers has its own.
    fn numbered(n: u8) -> Mode
        requires { n < 4 }
        ensures { mode_number result ≡ n }
    {
        match n {
            0 => Mode::A,
            1 => Mode::B,
            2 => Mode::C,
            _ => Mode::D,
        }
    }

    // The number by which settings name a mode.
    pub(crate) fn number(self) -> u8
        ensures value { result ≡ mode_number self }
        ensures low { result < 4 }
    {
        self as u8
    }
}

// The six spectrum occupancies, by their nominal width in kHz: 4.5, 5, 9, 10, 18 and 20.
#[derive(Clone, Copy, Debug, PartialEq, Eq)]
pub enum Occupancy {
    Khz4Half = 0,
    Khz5 = 1,
    Khz9 = 2,
    Khz10 = 3,
    Khz18 = 4,
    Khz20 = 5,
}

impl Occupancy {
    // The occupancy of a number.
    fn numbered(n: u8) -> Occupancy
        requires { n < 6 }
        ensures { occupancy_number result ≡ n }
    {
        match n {
            0 => Occupancy::Khz4Half,
            1 => Occupancy::Khz5,
            2 => Occupancy::Khz9,
            3 => Occupancy::Khz10,
            4 => Occupancy::Khz18,
            _ => Occupancy::Khz20,
        }
    }

    // The number by which settings name an occupancy.
    pub(crate) fn number(self) -> u8
        ensures value { result ≡ occupancy_number self }
        ensures low { result < 6 }
    {
        self as u8
    }
}

// A robustness mode and a spectrum occupancy, allowed together or not.
#[derive(Clone, Copy, Debug, PartialEq, Eq)]
pub struct Pairing {
    pub mode: Mode,
    pub occupancy: Occupancy,
}

impl Pairing {
    // The pairing of two numbers, as settings have them.
    pub fn numbered(mode: u8, occupancy: u8) -> Pairing
        requires { (mode < 4) × (occupancy < 6) }
        ensures { Paired mode occupancy result }
    {
        Pairing {
            mode: Mode::numbered(mode),
            occupancy: Occupancy::numbered(occupancy),
        }
    }
}
