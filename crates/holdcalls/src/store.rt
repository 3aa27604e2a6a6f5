// State and memory stored in a file. 02, S-7.
ghost use Rattle.std.specs.Prelude.{◌≡◌};
ghost use Rattle.refusal.specs.Numbers.{answer};
ghost use Rattle.holdfile.specs.Convert.{convert_yield};
ghost use Rattle.holdcalls.specs.Store.{store_refusal, store_of};

use callrefusals::refusals::{check_reset, in_order};
use holdlines::Form;
use holdlines::lengths::file_bytes;
use holdwriting::writing::put_file;
use refusal::Refusal;
use superframe::State;

// Whether storing is refused, by the lowest number that applies.
fn check_store(form: Form, state: State, memory: &[u8], file: &[u8]) -> Result<(), Refusal>
    ensures { answer result ≡ store_refusal form state memory.now file.now }
{
    let s = state.scheme.settings;
    let table = state.scheme.table;
    check_reset(s, &table, memory)?;
    if file.len() != file_bytes(form, s) {
        return Err(Refusal::OutputLength);
    }
    if !in_order(state, false, memory) {
        return Err(Refusal::Order);
    }
    Ok(())
}

// The file of a state and its memory; a refusal leaves the file's bytes as they were.
#[tactic(auto, using(refusal::proofs::Positive::number_positive), unfolding(crate::specs::Store::store_of))]
pub fn store(form: Form, state: State, memory: &[u8], file: &mut [u8]) -> Result<(), Refusal>
    ensures { convert_yield (answer result) file.new ≡ store_of form state memory.now file.old }
{
    check_store(form, state, memory, file)?;
    put_file(
        form,
        state.scheme.settings,
        state.position,
        state.count,
        memory,
        file,
    );
    Ok(())
}
