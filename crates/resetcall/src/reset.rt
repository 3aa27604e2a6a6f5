// The call Reset. 01 "Operations"; 02 S-11 and S-5.
ghost use Rattle.std.specs.Prelude.{◌≡◌};
ghost use Rattle.channels.specs.Scheme.{scheme_of, standard_scheme};
ghost use Rattle.superframe.specs.declared.State.{State};
ghost use Rattle.superframe.specs.Answers.{done};
ghost use Rattle.superframe.specs.Reset.{reset_of};
ghost use Rattle.resetcall.specs.Clauses.{reset_yield};

use callrefusals::refusals::check_reset;
use channels::tables::scheme_of;
use patterns::table::standard_table;
use refusal::Refusal;
use settings::Settings;
use startcells::start::fill_memory;
use superframe::State;

// Acceptance fills memory with the cells of frames before the first, and gives a state with the settings and the table, and position and count 0;
// a refusal leaves memory, and the caller keeps the old state.
#[tactic(auto, using(crate::proofs::ResetCalls::refused_reset))]
pub fn reset_table(settings: Settings, table: &[u8], memory: &mut [u8]) -> Result<State, Refusal>
    ensures { (old : State) → reset_yield (done old result) memory.new ≡ reset_of old (scheme_of settings table.now) memory.old }
{
    check_reset(settings, table, memory)?;
    let scheme = scheme_of(settings, table);
    fill_memory(scheme, memory);
    Ok(State {
        scheme,
        position: 0,
        count: 0,
    })
}

// The same with the standard's table.
pub fn reset(settings: Settings, memory: &mut [u8]) -> Result<State, Refusal>
    ensures { (old : State) → reset_yield (done old result) memory.new ≡ reset_of old (standard_scheme settings) memory.old }
{
    reset_table(settings, &standard_table(), memory)
}
