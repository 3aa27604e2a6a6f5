// The decision on an axis. Comparisons alone decide: a measured float is compared with the middles between neighbouring coordinates. 02, S-10.
ghost use Rattle.std.specs.Prelude.{◌≡◌, ◌<◌, get_or};
ghost use Rattle.std.specs.Float.Ieee.{lt};
ghost use Rattle.std.specs.Float.{nan};
ghost use Rattle.decision.specs.Clauses.{middles, first_place, Chooses, Placed, Decides, Decided};

use block::Constellation;

// The middle between coordinates 7 - 2i and 5 - 2i, at place i.
const MIDDLES: [f32; 7] = [6.0, 4.0, 2.0, 0.0, -2.0, -4.0, -6.0];

// Whether a value is below the middle at place k.
fn below(x: f32, k: usize) -> bool
    requires { k < 7 }
    ensures { result ≡ lt x (get_or middles k nan) }
{
    x < MIDDLES[k]
}

// The place i, from `first` to `last`, whose coordinate 7 - 2i is nearest, and the larger where two are equally near.
fn place(x: f32, first: usize, last: usize) -> usize
    requires { Chooses x first last }
    ensures { Placed x first last result }
{
    for i in (first..last).rev() {
        if below(x, i) {
            return i + 1;
        }
    }
    first
}

const COORDINATES: [i16; 8] = [7, 5, 3, 1, -1, -3, -5, -7];

// The place of each constellation's largest coordinate; that of the smallest is 7 less it.
#[tactic(auto, unfolding(crate::specs::Clauses::first_place))]
fn first_place(c: Constellation) -> usize
    ensures { result ≡ first_place c }
{
    match c {
        Constellation::Qam4 => 3,
        Constellation::Qam16 => 2,
        Constellation::Sm64 | Constellation::HmSym | Constellation::HmMix => 0,
    }
}

// The coordinate of a constellation's axes that a value is decided to: both axes have the same ones.
pub fn decide_axis(c: Constellation, x: f32) -> i16
    requires { Decides x }
    ensures { Decided c x result }
{
    let first = first_place(c);
    COORDINATES[place(x, first, 7 - first)]
}
