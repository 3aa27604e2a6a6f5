// The calls on multiplex frames: drm_mux_build and drm_mux_read. 02, S-8.
// Stays, in this module: the parameters are those of the C functions, in their order.
ghost use Rattle.std.specs.Prelude.{◌≡◌};
ghost use Rattle.multiplex.specs.Build.{build_yield};
ghost use Rattle.multiplex.specs.Read.{read_yield};
ghost use Rattle.drmcoder.specs.Mux.{build_frame, read_streams};

// A multiplex frame from the logical frames of its streams.
#[unsafe(no_mangle)]
pub extern "C" fn drm_mux_build(
    settings: &[u8],
    description: &[u16],
    streams: &[u8],
    frame: &mut [u8],
) -> u8
    ensures { build_yield result frame.new
        ≡ build_frame settings.now description.now streams.now frame.old }
{
    drmcoder::mux::drm_mux_build(settings, description, streams, frame)
}

// The logical frames of the streams of a multiplex frame.
#[unsafe(no_mangle)]
pub extern "C" fn drm_mux_read(
    settings: &[u8],
    description: &[u16],
    frame: &[u8],
    streams: &mut [u8],
) -> u8
    ensures { read_yield result streams.new
        ≡ read_streams settings.now description.now frame.now streams.old }
{
    drmcoder::mux::drm_mux_read(settings, description, frame, streams)
}
