// The calls on multiplex frames: drm_mux_build and drm_mux_read. 02, S-8.
// Stays, in this module: the parameters are those of the C functions, in their order.
ghost use Rattle.std.specs.Prelude.{◌≡◌};
ghost use Rattle.refusal.specs.Numbers.{answer};
ghost use Rattle.multiplex.specs.Build.{build_yield};
ghost use Rattle.multiplex.specs.Read.{read_yield};
ghost use Rattle.drmcoder.specs.Mux.{build_frame, read_streams};

use multiplex::calls::{build, read};
use refusal::{Refusal, answer};
use settingbytes::bytes::taken;

// A multiplex frame from the logical frames of its streams.
#[tactic(auto, unfolding(crate::specs::Mux::build_frame, settingbytes::specs::Bytes::taken))]
fn build_frame(
    settings: &[u8],
    description: &[u16],
    streams: &[u8],
    frame: &mut [u8],
) -> Result<(), Refusal>
    ensures { build_yield (answer result) frame.new
        ≡ build_frame settings.now description.now streams.now frame.old }
{
    build(taken(settings)?, description, streams, frame)
}

// The same by its number for C.
pub fn drm_mux_build(settings: &[u8], description: &[u16], streams: &[u8], frame: &mut [u8]) -> u8
    ensures { build_yield result frame.new
        ≡ build_frame settings.now description.now streams.now frame.old }
{
    answer(build_frame(settings, description, streams, frame))
}

// The logical frames of the streams of a multiplex frame.
#[tactic(auto, unfolding(crate::specs::Mux::read_streams, settingbytes::specs::Bytes::taken))]
fn read_streams(
    settings: &[u8],
    description: &[u16],
    frame: &[u8],
    streams: &mut [u8],
) -> Result<(), Refusal>
    ensures { read_yield (answer result) streams.new
        ≡ read_streams settings.now description.now frame.now streams.old }
{
    read(taken(settings)?, description, frame, streams)
}

// The same by its number for C.
pub fn drm_mux_read(settings: &[u8], description: &[u16], frame: &[u8], streams: &mut [u8]) -> u8
    ensures { read_yield result streams.new
        ≡ read_streams settings.now description.now frame.now streams.old }
{
    answer(read_streams(settings, description, frame, streams))
}
