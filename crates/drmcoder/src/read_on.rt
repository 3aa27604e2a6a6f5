// The call drm_read_on. 02, S-13.
// Stays, in this module: the parameters are those of the C functions, in their order.
ghost use Rattle.std.specs.Prelude.{◌≡◌};
ghost use Rattle.readoncall.specs.Clauses.{read_on_call};
ghost use Rattle.drmcoder.specs.ReadOn.{read_on_yields, read_on_bytes};

use readoncall::read::read_on;
use refusal::Refusal;
use statebytes::answers::{finish_read, refusal_word};
use statebytes::bytes::state_of;

// The cells of a super frame to its blocks and the multiplex frames that it finishes, each with its bits or lost.
#[tactic(auto, unfolding(crate::specs::ReadOn::read_on_bytes))]
pub fn drm_read_on(
    state: &mut [u8],
    memory: &mut [u8],
    faccells: &[i16],
    sdccells: &[i16],
    msccells: &[i16],
    fac: &mut [u8],
    sdc: &mut [u8],
    msc: &mut [u8],
    lost: &mut [u8],
) -> u16
    ensures { read_on_yields result state.new memory.new fac.new sdc.new msc.new lost.new
        ≡ read_on_bytes state.old memory.old
        (read_on_call faccells.now sdccells.now msccells.now
        fac.old sdc.old msc.old lost.old) }
{
    if state.len() != 208 {
        return refusal_word(Refusal::FixedLength, 0);
    }
    let outcome = read_on(
        state_of(state),
        faccells,
        sdccells,
        msccells,
        memory,
        fac,
        sdc,
        msc,
        lost,
    );
    finish_read(outcome, state)
}
