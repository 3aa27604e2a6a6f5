// Storing a state and its memory in a hold file, and restoring them, with the bytes that a caller lends. 02, S-7 and S-11.
// Stays, in this module: buffers stand one by one; with a struct of `&mut` a clause must also say that each reference is still the same one.
ghost use Rattle.std.specs.Prelude.{◌≡◌};
ghost use Rattle.patterns.specs.Patterns.{table65};
ghost use Rattle.refusal.specs.Numbers.{answer};
ghost use Rattle.holdfile.specs.Convert.{convert_yield};
ghost use Rattle.statebytes.specs.Answers.{reset_yields};
ghost use Rattle.holdbytes.specs.Restores.{store_bytes, restore_bytes};

use holdcalls::restore::restore_table;
use holdcalls::store::store;
use holdlines::Form;
use patterns::table::standard_table;
use refusal::Refusal;
use settingbytes::bytes::settings_of;
use statebytes::bytes::{put_state, state_of};

// A state and its memory to a file of a form.
pub fn store_bytes(form: Form, state: &[u8], memory: &[u8], file: &mut [u8]) -> Result<(), Refusal>
    ensures { convert_yield (answer result) file.new ≡ store_bytes form state.now memory.now file.old }
{
    if state.len() != 208 {
        return Err(Refusal::FixedLength);
    }
    store(form, state_of(state), memory, file)
}

// A file of a form to a state and its memory, with settings and a table.
pub fn restore_bytes(
    form: Form,
    state: &mut [u8],
    settings: &[u8],
    table: &[u8],
    file: &[u8],
    memory: &mut [u8],
) -> Result<(), Refusal>
    ensures { reset_yields (answer result) state.new memory.new
        ≡ restore_bytes form state.old settings.now table.now file.now memory.old }
{
    if state.len() != 208 || settings.len() != 10 {
        return Err(Refusal::FixedLength);
    }
    let after = restore_table(form, settings_of(settings), table, file, memory)?;
    put_state(after, state);
    Ok(())
}

// The same with the standard's table.
pub fn restore_standard(
    form: Form,
    state: &mut [u8],
    settings: &[u8],
    file: &[u8],
    memory: &mut [u8],
) -> Result<(), Refusal>
    ensures { reset_yields (answer result) state.new memory.new
        ≡ restore_bytes form state.old settings.now table65 file.now memory.old }
{
    restore_bytes(form, state, settings, &standard_table(), file, memory)
}
