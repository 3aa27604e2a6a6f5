// The call with the bytes of settings that a caller lends.
// Stays, in this module: buffers stand one by one; with a struct of `&mut` a clause must also say that each reference is still the same one.
ghost use Rattle.std.specs.Prelude.{◌≡◌};
ghost use Rattle.refusal.specs.Numbers.{answer};
ghost use Rattle.measured.specs.Calls.{decide_yield};
ghost use Rattle.measured.specs.Bytes.{decide_bytes};

use crate::Channel;
use crate::calls::decide;
use refusal::Refusal;
use settingbytes::bytes::settings_of;

// The cells of any channel.
#[tactic(auto, unfolding(crate::specs::Bytes::decide_bytes))]
pub fn decide_cells(
    channel: Channel,
    settings: &[u8],
    kinds: &[u8],
    values: &[f32],
    points: &mut [i16],
    bits: &mut [u8],
) -> Result<(), Refusal>
    ensures { decide_yield (answer result) points.new bits.new
        ≡ decide_bytes channel settings.now kinds.now values.now points.old bits.old }
{
    if settings.len() != 10 {
        return Err(Refusal::FixedLength);
    }
    decide(channel, settings_of(settings), kinds, values, points, bits)
}
