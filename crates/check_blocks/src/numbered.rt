// A block by the number of its kind, for a caller that has the kind as a byte. Nothing here calls it.
ghost use Rattle.std.specs.Prelude.{◌≡◌};
ghost use Rattle.check_blocks.specs.Numbered.{drawn_of};

use crate::blocks;
use crate::blocks::{Drawn, Kind};
use settings::Settings;

// A block of some settings; nothing is drawn for settings that are refused. 0 is an FAC block, 1 an SDC block, any other number a multiplex frame.
#[tactic(auto, unfolding(crate::specs::Kinds::block_of, crate::specs::Kinds::drawn_of, crate::specs::Numbered::block_of, crate::specs::Numbered::drawn_of))]
pub fn block(kind: u8, s: Settings, x: u64) -> Drawn
    ensures { result ≡ drawn_of kind s x }
{
    // Stays: the kind comes as a number, and the definition goes by it as well.
    let kind = match kind {
        0 => Kind::Fac,
        1 => Kind::Sdc,
        _ => Kind::Frame,
    };
    blocks::block(kind, s, x)
}
