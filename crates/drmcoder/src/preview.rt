// The call drm_preview. 02, S-3.
// Stays, in this module: the parameters are those of the C functions, in their order.
ghost use Rattle.std.specs.Prelude.{◌≡◌};
ghost use Rattle.superframe.specs.Clauses.{code_call};
ghost use Rattle.drmcoder.specs.Preview.{preview_yields, preview_bytes};

use previewcall::preview;
use refusal::{Refusal, answer};
use statebytes::answers::finish;
use statebytes::bytes::state_of;

// The cells of the next super frame, and the state after it, with state and memory only read.
#[tactic(auto, unfolding(crate::specs::Preview::preview_bytes))]
pub fn drm_preview(
    state: &[u8],
    memory: &[u8],
    fac: &[u8],
    sdc: &[u8],
    msc: &[u8],
    faccells: &mut [i16],
    sdccells: &mut [i16],
    msccells: &mut [i16],
    next: &mut [u8],
) -> u8
    ensures { preview_yields result faccells.new sdccells.new msccells.new next.new
        ≡ preview_bytes state.now memory.now
        (code_call fac.now sdc.now msc.now faccells.old sdccells.old msccells.old)
        next.old }
{
    if state.len() != 208 || next.len() != 208 {
        return Refusal::FixedLength.number();
    }
    let outcome = preview(
        state_of(state),
        fac,
        sdc,
        msc,
        memory,
        faccells,
        sdccells,
        msccells,
    );
    answer(finish(outcome, next))
}
