// The calls drm_reset, drm_reset_table, drm_code and drm_read.
// Stays, in this module: the parameters are those of the C functions, in their order.
ghost use Rattle.std.specs.Prelude.{◌≡◌};
ghost use Rattle.refusal.specs.Numbers.{answer};
ghost use Rattle.patterns.specs.Patterns.{table65};
ghost use Rattle.superframe.specs.Clauses.{code_call, read_call};
ghost use Rattle.statebytes.specs.Answers.{reset_yields};
ghost use Rattle.drmcoder.specs.Calls.{code_yields, read_yields, reset_bytes, code_bytes, read_bytes};

use codecall::code::code;
use patterns::table::standard_table;
use readcall::read::read;
use refusal::{Refusal, answer};
use resetcall::reset::reset_table;
use settingbytes::bytes::taken;
use statebytes::answers::{finish, finish_read, refusal_word};
use statebytes::bytes::state_of;

// Begins a run of settings and a table on a memory.
#[tactic(auto, unfolding(crate::specs::Calls::reset_bytes, settingbytes::specs::Bytes::taken))]
fn reset_bytes(
    state: &mut [u8],
    settings: &[u8],
    table: &[u8],
    memory: &mut [u8],
) -> Result<(), Refusal>
    ensures { reset_yields (answer result) state.new memory.new
        ≡ reset_bytes state.old settings.now table.now memory.old }
{
    if state.len() != 208 {
        return Err(Refusal::FixedLength);
    }
    let s = taken(settings)?;
    finish(reset_table(s, table, memory), state)
}

// Begins a run with the standard's table.
pub fn drm_reset(state: &mut [u8], settings: &[u8], memory: &mut [u8]) -> u8
    ensures { reset_yields result state.new memory.new
        ≡ reset_bytes state.old settings.now table65 memory.old }
{
    answer(reset_bytes(state, settings, &standard_table(), memory))
}

// Begins a run with a table of its own. 02 S-11.
pub fn drm_reset_table(state: &mut [u8], settings: &[u8], table: &[u8], memory: &mut [u8]) -> u8
    ensures { reset_yields result state.new memory.new
        ≡ reset_bytes state.old settings.now table.now memory.old }
{
    answer(reset_bytes(state, settings, table, memory))
}

// Three FAC blocks, an SDC block and three multiplex frames to the cells of a super frame.
#[tactic(auto, unfolding(crate::specs::Calls::code_bytes))]
pub fn drm_code(
    state: &mut [u8],
    memory: &mut [u8],
    fac: &[u8],
    sdc: &[u8],
    msc: &[u8],
    faccells: &mut [i16],
    sdccells: &mut [i16],
    msccells: &mut [i16],
) -> u8
    ensures { code_yields result state.new memory.new faccells.new sdccells.new msccells.new
        ≡ code_bytes state.old memory.old
        (code_call fac.now sdc.now msc.now faccells.old sdccells.old msccells.old) }
{
    if state.len() != 208 {
        return Refusal::FixedLength.number();
    }
    let outcome = code(
        state_of(state),
        fac,
        sdc,
        msc,
        memory,
        faccells,
        sdccells,
        msccells,
    );
    answer(finish(outcome, state))
}

// The cells of a super frame to three FAC blocks, an SDC block and the multiplex frames that it finishes.
#[tactic(auto, unfolding(crate::specs::Calls::read_bytes))]
pub fn drm_read(
    state: &mut [u8],
    memory: &mut [u8],
    faccells: &[i16],
    sdccells: &[i16],
    msccells: &[i16],
    fac: &mut [u8],
    sdc: &mut [u8],
    msc: &mut [u8],
) -> u16
    ensures { read_yields result state.new memory.new fac.new sdc.new msc.new
        ≡ read_bytes state.old memory.old
        (read_call faccells.now sdccells.now msccells.now fac.old sdc.old msc.old) }
{
    if state.len() != 208 {
        return refusal_word(Refusal::FixedLength, 0);
    }
    let outcome = read(
        state_of(state),
        faccells,
        sdccells,
        msccells,
        memory,
        fac,
        sdc,
        msc,
    );
    finish_read(outcome, state)
}
