// State and memory restored from a file. 02, S-7 and S-11.
// Stays, in this module: buffers stand one by one; with a struct of `&mut` a clause must also say that each reference is still the same one. Form,
// settings and file are three parameters of the calls; a struct of them would be made for one use in each call, and a clause would name `file.bytes.now`.
ghost use Rattle.std.specs.Prelude.{◌≡◌, ◌*◌, length};
ghost use Rattle.settings.specs.Accepted.{Accepted};
ghost use Rattle.settings.specs.Lengths.{n_mux};
ghost use Rattle.settings.specs.Sizes.{depth};
ghost use Rattle.channels.specs.Scheme.{scheme_of, standard_scheme};
ghost use Rattle.superframe.specs.declared.State.{State};
ghost use Rattle.superframe.specs.Answers.{done};
ghost use Rattle.holdcalls.specs.Restore.{restore_yield, restore_of};
ghost use Rattle.holdcalls.specs.Clauses.{MemoryRoom, MemoryTaken};

use callrefusals::refusals::check_reset;
use cellmemory::buffers::memory_buffer;
use channels::tables::scheme_of;
use holdlines::Form;
use holdlines::digits::digit_value;
use holdreading::reading::take_file;
use patterns::table::standard_table;
use refusal::Refusal;
use settings::Settings;
use superframe::State;

// The cells of a file into memory, by way of a working memory. Refusal 18.
#[tactic(auto, using(crate::proofs::RestoreCalls::kept_memory))]
fn take_in(
    form: Form,
    s: Settings,
    file: &[u8],
    work: &mut [u8],
    memory: &mut [u8],
) -> Result<(), Refusal>
    requires { MemoryRoom s work.old memory.old }
    ensures { MemoryTaken form s file.now memory.old result memory.new }
{
    take_file(form, s, file, work)?;
    memory.copy_from_slice(work);
    Ok(())
}

// Stays: `take_file` and what it calls take Settings, as public functions do; a type for accepted ones would be made Settings again there.
fn take_memory(form: Form, s: Settings, file: &[u8], memory: &mut [u8]) -> Result<(), Refusal>
    requires { Accepted s × (length memory.old ≡ depth s * n_mux s) }
    ensures { MemoryTaken form s file.now memory.old result memory.new }
{
    let n = memory.len();
    let mut work = memory_buffer();
    take_in(form, s, file, &mut work[0..n], memory)
}

// Acceptance takes settings and table, and position, count and cells of the file; a refusal leaves memory, and the caller keeps the old state.
#[tactic(auto, using(crate::proofs::RestoreCalls::refused_early))]
pub fn restore_table(
    form: Form,
    s: Settings,
    table: &[u8],
    file: &[u8],
    memory: &mut [u8],
) -> Result<State, Refusal>
    ensures { (old : State) → restore_yield (done old result) memory.new
        ≡ restore_of form old (scheme_of s table.now) file.now memory.old }
{
    check_reset(s, table, memory)?;
    take_memory(form, s, file, memory)?;
    Ok(State {
        scheme: scheme_of(s, table),
        position: digit_value(file[0]).unwrap_or(0),
        count: digit_value(file[1]).unwrap_or(0),
    })
}

// The same with the standard's table.
pub fn restore(form: Form, s: Settings, file: &[u8], memory: &mut [u8]) -> Result<State, Refusal>
    ensures { (old : State) → restore_yield (done old result) memory.new
        ≡ restore_of form old (standard_scheme s) file.now memory.old }
{
    restore_table(form, s, &standard_table(), file, memory)
}
