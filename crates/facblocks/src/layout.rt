// Fields as numbers that a caller lends and as the parameters of a block, and the tests of 15.
ghost use Rattle.std.specs.Prelude.{◌≡◌};
ghost use Rattle.facblocks.specs.Fields.{parameters, fields_among, fields_of, numbers_of, agrees};

use crate::Fields;
use settings::Settings;

// The numbers of a caller's fields.
pub const FIELDS: usize = 14;

// Fields from their fourteen numbers.
impl From<[u32; FIELDS]> for Fields {
    ghost from_gives = { λ numbers f. f ≡ fields_of numbers };

    #[tactic(auto, unfolding(crate::specs::Fields::fields_of))]
    fn from(numbers: [u32; FIELDS]) -> Fields {
        Fields {
            enhancement: numbers[0],
            identity: numbers[1],
            occupancy: numbers[2],
            interleaving: numbers[3],
            msc: numbers[4],
            sdc: numbers[5],
            services: numbers[6],
            reconfiguration: numbers[7],
            service: numbers[8],
            shortid: numbers[9],
            ca: numbers[10],
            language: numbers[11],
            dataflag: numbers[12],
            descriptor: numbers[13],
        }
    }
}

// The fourteen numbers of fields.
impl From<Fields> for [u32; FIELDS] {
    ghost from_gives = { λ f numbers. numbers ≡ numbers_of f };

    #[tactic(auto, unfolding(crate::specs::Fields::numbers_of))]
    fn from(f: Fields) -> [u32; FIELDS] {
        [
            f.enhancement,
            f.identity,
            f.occupancy,
            f.interleaving,
            f.msc,
            f.sdc,
            f.services,
            f.reconfiguration,
            f.service,
            f.shortid,
            f.ca,
            f.language,
            f.dataflag,
            f.descriptor,
        ]
    }
}

// The sixteen parameters in the order of a block, the reserved ones zero.
#[tactic(auto, unfolding(crate::specs::Fields::parameters, crate::specs::Fields::numbers_of))]
pub fn parameters(f: Fields) -> [u32; 16]
    ensures { result ≡ parameters f }
{
    [
        f.enhancement,
        f.identity,
        f.occupancy,
        f.interleaving,
        f.msc,
        f.sdc,
        f.services,
        f.reconfiguration,
        0,
        f.service,
        f.shortid,
        f.ca,
        f.language,
        f.dataflag,
        f.descriptor,
        0,
    ]
}

// The fields among the sixteen parameters of a block: all but the reserved ones, 8 and 15.
#[tactic(auto, unfolding(crate::specs::Fields::fields_among, crate::specs::Fields::fields_of, crate::specs::Fields::field_places))]
pub fn fields_among(p: [u32; 16]) -> Fields
    ensures { result ≡ fields_among p }
{
    Fields::from([
        p[0], p[1], p[2], p[3], p[4], p[5], p[6], p[7], p[9], p[10], p[11], p[12], p[13], p[14],
    ])
}

// Whether fields and settings agree where both name the same thing.
#[tactic(auto, unfolding(crate::specs::Fields::agrees))]
pub fn agrees(s: Settings, f: Fields) -> bool
    ensures { result ≡ agrees s f }
{
    f.occupancy == s.occupancy as u32
        && f.interleaving == s.interleaving as u32
        && f.msc == s.msc as u32
        && f.sdc == s.sdc as u32
}
