// The call drm_how_long. 02, S-14.
// Stays, in this module: the parameters are those of the C functions, in their order.
ghost use Rattle.std.specs.Prelude.{◌≡◌};
ghost use Rattle.refusal.specs.Numbers.{answer};
ghost use Rattle.howlong.specs.HowLong.{how_long_yield};
ghost use Rattle.drmcoder.specs.HowLong.{how_long_bytes};

use howlong::calls::how_long;
use refusal::{Refusal, answer};
use settingbytes::bytes::taken;

// Super frames with the closing, bytes of memory, and zero bits after the last byte, for so many bytes.
#[tactic(auto, unfolding(crate::specs::HowLong::how_long_bytes, settingbytes::specs::Bytes::taken))]
fn how_long_bytes(settings: &[u8], bytes: u32, numbers: &mut [u32]) -> Result<(), Refusal>
    ensures { how_long_yield (answer result) numbers.new ≡ how_long_bytes settings.now bytes numbers.old }
{
    how_long(taken(settings)?, bytes, numbers)
}

// The same by its number for C.
pub fn drm_how_long(settings: &[u8], bytes: u32, numbers: &mut [u32]) -> u8
    ensures { how_long_yield result numbers.new ≡ how_long_bytes settings.now bytes numbers.old }
{
    answer(how_long_bytes(settings, bytes, numbers))
}
