// The call that says how long a number of bytes takes. 02, S-14.
ghost use Rattle.std.specs.Prelude.{◌≡◌, ◌≤◌};
ghost use Rattle.refusal.specs.Numbers.{answer};
ghost use Rattle.howlong.specs.HowLong.{super_frames, zero_bits, how_long_refusal, how_long_yield, how_long_of};
ghost use Rattle.howlong.specs.Clauses.{Counts};

use partlengths::formulas::hierarchical;
use refusal::Refusal;
use settings::Settings;
use settings::answers::{all_lengths, memory_bytes};

// The numbers that the call answers.
const NUMBERS: usize = 3;

// The super frames that close a run.
const CLOSING: usize = 2;

// 1 to 7, 10 and 27, lowest number first.
#[tactic(auto, using(refusal::proofs::Positive::number_positive), unfolding(crate::specs::HowLong::how_long_refusal, settings::specs::Refusal::first))]
fn check_how_long(s: Settings, numbers: usize) -> Result<(), Refusal>
    ensures { answer result ≡ how_long_refusal s numbers }
{
    settings::refusals::check(s)?;
    if numbers != NUMBERS {
        return Err(Refusal::OutputLength);
    }
    if 0 < s.x || hierarchical(s.msc) {
        return Err(Refusal::InUse);
    }
    Ok(())
}

// The super frames of n bytes, each frame with as many whole bytes as its L2 bits hold, and the closing.
fn super_frames(l2: usize, n: usize) -> usize
    requires { Counts l2 n }
    ensures { (result ≡ super_frames l2 n) × (result ≤ 2000000000) }
{
    let whole = l2 / 8;
    let frames = n.div_ceil(whole);
    frames.div_ceil(3) + CLOSING
}

// The zero bits after the last of n bytes in its frame, 0 where there are none.
fn zero_bits(l2: usize, n: usize) -> usize
    requires { Counts l2 n }
    ensures { (result ≡ zero_bits l2 n) × (result ≤ l2) }
{
    if n == 0 {
        return 0;
    }
    l2 - 8 * ((n - 1) % (l2 / 8) + 1)
}

// Super frames with the closing, bytes of memory, and zero bits after the last byte, for so many bytes.
#[tactic(auto, using(refusal::proofs::Positive::number_positive), unfolding(crate::specs::HowLong::how_long_of))]
pub fn how_long(s: Settings, bytes: u32, numbers: &mut [u32]) -> Result<(), Refusal>
    ensures { how_long_yield (answer result) numbers.new ≡ how_long_of s bytes numbers.old }
{
    check_how_long(s, numbers.len())?;
    let l = all_lengths(s);
    let l2 = l.l2 as usize;
    let n = bytes as usize;
    numbers[0] = super_frames(l2, n) as u32;
    numbers[1] = memory_bytes(s) as u32;
    numbers[2] = zero_bits(l2, n) as u32;
    Ok(())
}
