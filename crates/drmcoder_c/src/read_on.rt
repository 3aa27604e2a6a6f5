// The call drm_read_on. 02, S-13.
// Stays, in this module: the parameters are those of the C functions, in their order.
ghost use Rattle.std.specs.Prelude.{◌≡◌};
ghost use Rattle.readoncall.specs.Clauses.{read_on_call};
ghost use Rattle.drmcoder.specs.ReadOn.{read_on_yields, read_on_bytes};

// The cells of a super frame to its blocks and the multiplex frames that it finishes, each with its bits or lost.
// Stays: the C interface: an export for each call, which hands its parameters to the function of that name.
#[unsafe(no_mangle)]
pub extern "C" fn drm_read_on(
    state: &mut [u8],
    memory: &mut [u8],
    faccells: &[i16],
    sdccells: &[i16],
    msccells: &[i16],
    fac: &mut [u8],
    sdc: &mut [u8],
    msc: &mut [u8],
    lost: &mut [u8],
) -> u16
    ensures { read_on_yields result state.new memory.new fac.new sdc.new msc.new lost.new
        ≡ read_on_bytes state.old memory.old
        (read_on_call faccells.now sdccells.now msccells.now
        fac.old sdc.old msc.old lost.old) }
{
    drmcoder::read_on::drm_read_on(
        state, memory, faccells, sdccells, msccells, fac, sdc, msc, lost,
    )
}
