// The calls that build a multiplex frame and split one into its streams. 02, S-8.
// Stays, in this module: buffers stand one by one; with a struct of `&mut` a clause must also say that each reference is still the same one.
ghost use Rattle.std.specs.Prelude.{◌≡◌};
ghost use Rattle.refusal.specs.Numbers.{answer};
ghost use Rattle.multiplex.specs.Build.{build_yield, build_refusal, build_of};
ghost use Rattle.multiplex.specs.Read.{read_yield, read_refusal, read_of};

use crate::bits::{filling_zero, put_frame, take_frame};
use crate::description::{described, fits, layout, uncounted};
use packing::bits::spare_zero;
use refusal::Refusal;
use settings::Settings;
use settings::answers::bytes_for;

// 1 to 7, 9, 10 and 19, lowest number first.
#[tactic(auto, using(refusal::proofs::Positive::number_positive), unfolding(crate::specs::Build::build_refusal, settings::specs::Refusal::first))]
fn check_build(
    s: Settings,
    description: &[u16],
    streams: &[u8],
    frame: &[u8],
) -> Result<(), Refusal>
    ensures { answer result ≡ build_refusal s description.now streams.now frame.now }
{
    settings::refusals::check(s)?;
    if !described(description.len()) {
        return Err(Refusal::InputLength);
    }
    let l = layout(s, description);
    if streams.len() != l.head + (l.a + l.b) {
        return Err(Refusal::InputLength);
    }
    if frame.len() != bytes_for(l.vspp + l.rest) {
        return Err(Refusal::OutputLength);
    }
    if !fits(l, s.x) {
        return Err(Refusal::StreamParts);
    }
    Ok(())
}

// A multiplex frame from the logical frames of its streams.
#[tactic(auto, using(refusal::proofs::Positive::number_positive), unfolding(crate::specs::Build::build_of))]
pub fn build(
    s: Settings,
    description: &[u16],
    streams: &[u8],
    frame: &mut [u8],
) -> Result<(), Refusal>
    ensures { build_yield (answer result) frame.new ≡ build_of s description.now streams.now frame.old }
{
    check_build(s, description, streams, frame)?;
    let l = layout(s, description);
    let first = uncounted(s.msc);
    put_frame(l, &description[first..], streams, frame);
    Ok(())
}

// 1 to 7, 9, 10, 11, 19 and 20, lowest number first.
#[tactic(auto, using(refusal::proofs::Positive::number_positive), unfolding(crate::specs::Read::read_refusal, settings::specs::Refusal::first))]
fn check_read(s: Settings, description: &[u16], frame: &[u8], streams: &[u8]) -> Result<(), Refusal>
    ensures { answer result ≡ read_refusal s description.now frame.now streams.now }
{
    settings::refusals::check(s)?;
    if !described(description.len()) {
        return Err(Refusal::InputLength);
    }
    let l = layout(s, description);
    if frame.len() != bytes_for(l.vspp + l.rest) {
        return Err(Refusal::InputLength);
    }
    if streams.len() != l.head + (l.a + l.b) {
        return Err(Refusal::OutputLength);
    }
    if !spare_zero(frame, l.vspp + l.rest) {
        return Err(Refusal::SpareBit);
    }
    if !fits(l, s.x) {
        return Err(Refusal::StreamParts);
    }
    if !filling_zero(l, frame) {
        return Err(Refusal::Filling);
    }
    Ok(())
}

// The logical frames of the streams of a multiplex frame.
// Stays: building writes the frame and reading the streams, so that one function for both would take a closure over both buffers.
#[tactic(auto, using(refusal::proofs::Positive::number_positive), unfolding(crate::specs::Read::read_of))]
pub fn read(
    s: Settings,
    description: &[u16],
    frame: &[u8],
    streams: &mut [u8],
) -> Result<(), Refusal>
    ensures { read_yield (answer result) streams.new ≡ read_of s description.now frame.now streams.old }
{
    check_read(s, description, frame, streams)?;
    let l = layout(s, description);
    let first = uncounted(s.msc);
    take_frame(l, &description[first..], frame, streams);
    Ok(())
}
