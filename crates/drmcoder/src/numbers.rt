// The calls drm_lengths and drm_sizes.
ghost use Rattle.std.specs.Prelude.{◌≡◌};
ghost use Rattle.refusal.specs.Numbers.{answer};
ghost use Rattle.settingbytes.specs.Numbers.{yielded, lengths_bytes, sizes_bytes};

use refusal::{Refusal, answer};
use settingbytes::bytes::taken;
use settingbytes::numbers::{put_lengths, put_sizes};
use settings::answers;

// N1, N2, L1, L2 and L_VSPP of ten bytes of settings.
// Stays: `how_long_bytes` has another count of numbers and another call, so that one function for both would take them as a closure.
#[tactic(auto, unfolding(settingbytes::specs::Numbers::lengths_bytes, settingbytes::specs::Bytes::taken))]
fn lengths_bytes(settings: &[u8], lengths: &mut [u16]) -> Result<(), Refusal>
    ensures { yielded (answer result) lengths.new ≡ lengths_bytes settings.now lengths.old }
{
    let s = taken(settings)?;
    if lengths.len() != 5 {
        return Err(Refusal::FixedLength);
    }
    put_lengths(answers::lengths(s), lengths)
}

// The same by its number for C.
pub fn drm_lengths(settings: &[u8], lengths: &mut [u16]) -> u8
    ensures { yielded result lengths.new ≡ lengths_bytes settings.now lengths.old }
{
    answer(lengths_bytes(settings, lengths))
}

// The bytes of SDC and MSC, the numbers of FAC, SDC and MSC cells, and the bytes of memory.
// Stays: another count of numbers and another call than in `lengths_bytes`, so that one function for both would take them as a closure.
#[tactic(auto, unfolding(settingbytes::specs::Numbers::sizes_bytes, settingbytes::specs::Bytes::taken))]
fn sizes_bytes(settings: &[u8], sizes: &mut [u32]) -> Result<(), Refusal>
    ensures { yielded (answer result) sizes.new ≡ sizes_bytes settings.now sizes.old }
{
    let s = taken(settings)?;
    if sizes.len() != 6 {
        return Err(Refusal::FixedLength);
    }
    put_sizes(answers::sizes(s), sizes)
}

// The same by its number for C.
pub fn drm_sizes(settings: &[u8], sizes: &mut [u32]) -> u8
    ensures { yielded result sizes.new ≡ sizes_bytes settings.now sizes.old }
{
    answer(sizes_bytes(settings, sizes))
}
