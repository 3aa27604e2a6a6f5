// Refusals, and the tests that they rest on. 01 "Operations".
ghost use Rattle.std.specs.Prelude.{◌≡◌, map, length, ◌*◌, ◌≤◌, Ok, IfOk};
ghost use Rattle.refusal.specs.Numbers.{answer};
ghost use Rattle.settings.specs.Sizes.{all_sizes, sizes_yield};
ghost use Rattle.settings.specs.Lengths.{l_sdc};
ghost use Rattle.block.specs.Packing.{spare_zero};
ghost use Rattle.lists.specs.Bools.{every};
ghost use Rattle.channels.specs.Scheme.{scheme_of, scheme_refusal};
ghost use Rattle.superframe.specs.Call.{parts, in_order};
ghost use Rattle.superframe.specs.Reset.{reset_refusal};
ghost use Rattle.superframe.specs.Code.{spares_zero};
ghost use Rattle.superframe.specs.Clauses.{Fits};
ghost use Rattle.callrefusals.specs.Clauses.{bytes_long, cells_long, length_refusal, Packed};

use channels::blocks::msc_constellation;
use channels::tables::check_table;
use packing::bits::spare_zero;
use partlengths::{formulas, tables};
use pointtests::tests::bytes_pass;
use refusal::Refusal;
use settings::{Settings, Sizes, answers};
use superframe::State;

// The buffers of packed bytes have their lengths.
// Stays: each caller has three slices; a struct of three lengths would repeat the names fac, sdc and msc at every call.
pub fn bytes_long(z: Sizes, fac: usize, sdc: usize, msc: usize) -> bool
    ensures { result ≡ bytes_long (sizes_yield (Ok z)) fac sdc msc }
{
    fac == 3 * tables::FAC_BYTES && sdc == z.sdcbytes as usize && msc == z.mscbytes as usize
}

// The buffers of cells have theirs.
// Stays: each caller has three slices; a struct of three lengths would repeat the names fac, sdc and msc at every call.
pub fn cells_long(z: Sizes, fac: usize, sdc: usize, msc: usize) -> bool
    ensures { result ≡ cells_long (sizes_yield (Ok z)) fac sdc msc }
{
    fac == z.facnumbers as usize && sdc == z.sdcnumbers as usize && msc == z.mscnumbers as usize
}

// 1 to 7 and 23, and otherwise the sizes of the settings.
pub fn accepted_sizes(s: Settings, table: &[u8]) -> Result<Sizes, Refusal>
    ensures refused { answer result ≡ scheme_refusal (scheme_of s table.now) }
    ensures sizes { IfOk result (λ z. sizes_yield (Ok z) ≡ all_sizes s) }
{
    check_table(s, table)?;
    Ok(answers::all_sizes(s))
}

// 8 to 10: a memory of so many bytes, and the tests of 9 and 10.
#[tactic(auto, unfolding(crate::specs::Clauses::length_refusal, settings::specs::Refusal::first))]
pub fn check_lengths(z: Sizes, bytes: usize, nine: bool, ten: bool) -> Result<(), Refusal>
    ensures { answer result ≡ length_refusal 0 (sizes_yield (Ok z)) bytes nine ten }
{
    if bytes != z.memory as usize {
        return Err(Refusal::MemoryLength);
    }
    if !nine {
        return Err(Refusal::InputLength);
    }
    if !ten {
        return Err(Refusal::OutputLength);
    }
    Ok(())
}

// 1 to 7, 23 and 8, as Reset, storing and restoring ask for them.
#[tactic(auto, using(crate::proofs::Chains::reset_refused))]
pub fn check_reset(s: Settings, table: &[u8], memory: &[u8]) -> Result<(), Refusal>
    ensures { answer result ≡ reset_refusal (scheme_of s table.now) memory.now }
{
    let z = accepted_sizes(s, table)?;
    check_lengths(z, memory.len(), true, true)
}

// No spare bit is set in three frames of so many bits and bytes.
fn frames_spare(bits: usize, bytes: usize, msc: &[u8]) -> bool
    requires { (length msc.now ≡ 3 * bytes) × (bytes ≤ 8192) }
    ensures { result ≡ every (map (spare_zero bits) (parts bytes msc.now)) }
{
    let mut passed = true;
    for i in 0..3 {
        passed = passed & spare_zero(&msc[bytes * i..bytes * i + bytes], bits);
    }
    passed
}

// The bits of an SDC block.
#[tactic(auto, using(partlengths::proofs::Counts::sdc_low), unfolding(settings::specs::Lengths::l_sdc, settings::specs::Lengths::n_sdc))]
fn sdc_bits(s: Settings) -> usize
    ensures { result ≡ l_sdc s }
{
    formulas::sdc_bits(s.sdc, tables::n_sdc(s.mode, s.occupancy) as u16)
}

// 11: no spare bit is set.
pub fn spares_zero(s: Settings, sdc: &[u8], msc: &[u8]) -> bool
    requires { Packed s sdc.now msc.now }
    ensures { result ≡ spares_zero s sdc.now msc.now }
{
    if !spare_zero(sdc, sdc_bits(s)) {
        return false;
    }
    frames_spare(answers::frame_bits(s), answers::frame_bytes(s), msc)
}

// 12: position and count are below the depth, and every memory cell is an MSC point, or (0, 0) where empty cells pass.
pub fn in_order(state: State, empties: bool, memory: &[u8]) -> bool
    requires { Fits state.scheme memory.now }
    ensures { result ≡ in_order empties state memory.now }
{
    let s = state.scheme.settings;
    let depth = answers::depth(s);
    if depth <= state.position as usize {
        return false;
    }
    if depth <= state.count as usize {
        return false;
    }
    bytes_pass(msc_constellation(s.msc), empties, memory)
}
