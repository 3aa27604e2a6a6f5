// The calls that store a state and its memory in a hold file, and restore them. 02, S-7 and S-11.
// Stays, in this module: the parameters are those of the C functions, in their order.
ghost use Rattle.std.specs.Prelude.{◌≡◌};
ghost use Rattle.patterns.specs.Patterns.{table65};
ghost use Rattle.holdlines.specs.declared.Form.TheVariants.{Old, New};
ghost use Rattle.holdfile.specs.Convert.{convert_yield};
ghost use Rattle.statebytes.specs.Answers.{reset_yields};
ghost use Rattle.holdbytes.specs.Restores.{store_bytes, restore_bytes};

use holdbytes::restores::{restore_bytes, restore_standard, store_bytes};
use holdlines::Form;
use refusal::answer;

// A state and its memory to an old file.
pub fn drm_store_old(state: &[u8], memory: &[u8], file: &mut [u8]) -> u8
    ensures { convert_yield result file.new ≡ store_bytes Old state.now memory.now file.old }
{
    answer(store_bytes(Form::Old, state, memory, file))
}

// A state and its memory to a new file.
pub fn drm_store_new(state: &[u8], memory: &[u8], file: &mut [u8]) -> u8
    ensures { convert_yield result file.new ≡ store_bytes New state.now memory.now file.old }
{
    answer(store_bytes(Form::New, state, memory, file))
}

// A run from an old file, with the standard's table.
pub fn drm_restore_old(state: &mut [u8], settings: &[u8], file: &[u8], memory: &mut [u8]) -> u8
    ensures { reset_yields result state.new memory.new
        ≡ restore_bytes Old state.old settings.now table65 file.now memory.old }
{
    answer(restore_standard(Form::Old, state, settings, file, memory))
}

// A run from a new file, with the standard's table.
pub fn drm_restore_new(state: &mut [u8], settings: &[u8], file: &[u8], memory: &mut [u8]) -> u8
    ensures { reset_yields result state.new memory.new
        ≡ restore_bytes New state.old settings.now table65 file.now memory.old }
{
    answer(restore_standard(Form::New, state, settings, file, memory))
}

// A run from an old file, with a table of its own.
pub fn drm_restore_old_table(
    state: &mut [u8],
    settings: &[u8],
    table: &[u8],
    file: &[u8],
    memory: &mut [u8],
) -> u8
    ensures { reset_yields result state.new memory.new
        ≡ restore_bytes Old state.old settings.now table.now file.now memory.old }
{
    answer(restore_bytes(Form::Old, state, settings, table, file, memory))
}

// A run from a new file, with a table of its own.
pub fn drm_restore_new_table(
    state: &mut [u8],
    settings: &[u8],
    table: &[u8],
    file: &[u8],
    memory: &mut [u8],
) -> u8
    ensures { reset_yields result state.new memory.new
        ≡ restore_bytes New state.old settings.now table.now file.now memory.old }
{
    answer(restore_bytes(Form::New, state, settings, table, file, memory))
}
