// The kinds of the places of a super frame's grid of symbols and carriers. 001, chapter 8; 02, S-4.
#![tactic(auto)]

ghost use Rattle.std.specs.Prelude.{◌≡◌};
ghost use Rattle.kinds.specs.Kinds.{number, Decodes};

pub mod pairings;
pub mod rows;
pub mod tables;

// The kinds of places in the order of their numbers: empty, frequency, time and gain reference, FAC, SDC and MSC cell.
#[derive(Clone, Copy, Debug, PartialEq, Eq)]
pub enum Kind {
    Empty = 0,
    Frequency = 1,
    Time = 2,
    Gain = 3,
    Fac = 4,
    Sdc = 5,
    Msc = 6,
}

impl Kind {
    // The number by which a grid marks a place of this kind.
    pub fn number(self) -> u8
        ensures { result ≡ number self }
    {
        self as u8
    }
}

// A number that no kind of place has.
#[derive(Clone, Copy, Debug, PartialEq, Eq)]
pub struct UnknownKind(pub u8);

impl TryFrom<u8> for Kind {
    type Error = UnknownKind;

    ghost try_from_gives = { Decodes };

    fn try_from(n: u8) -> Result<Self, UnknownKind> {
        match n {
            0 => Ok(Kind::Empty),
            1 => Ok(Kind::Frequency),
            2 => Ok(Kind::Time),
            3 => Ok(Kind::Gain),
            4 => Ok(Kind::Fac),
            5 => Ok(Kind::Sdc),
            6 => Ok(Kind::Msc),
            _ => Err(UnknownKind(n)),
        }
    }
}
