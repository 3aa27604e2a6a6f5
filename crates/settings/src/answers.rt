// The calls `lengths` and `sizes`.
ghost use Rattle.std.specs.Prelude.{◌≡◌, ◌*◌, ◌≤◌, Ok};
ghost use Rattle.settings.specs.Accepted.{Accepted};
ghost use Rattle.settings.specs.Lengths.{lengths_of, lengths_yield, accepted, n_mux};
ghost use Rattle.settings.specs.Sizes.{sizes_of, sizes_yield, all_sizes, depth, frame_bits, frame_bytes};
ghost use Rattle.lists.specs.Bytes.{bytes_for};

use crate::refusals::check;
use crate::{Lengths, Settings, Sizes};
use partlengths::{formulas, tables};
use refusal::Refusal;

// The five lengths.
#[tactic(auto, using(crate::proofs::Bounds::lengths_refuse))]
pub fn lengths(s: Settings) -> Result<Lengths, Refusal>
    ensures { lengths_yield result ≡ lengths_of s }
{
    check(s)?;
    Ok(all_lengths(s))
}

// The same of settings that are not refused.
// Stays: a type for accepted settings was thought through for the whole repository. The definitions, State and Scheme have Settings, which the C interface
// may fill with any bytes, so nine calls in other crates (as in `startcells` with `s.settings`, where `Accepted` comes from `SchemeAccepted s`) would
// make the type first, with the proof that they give to the clause now, and every clause that names `s` would name `s.settings`.
pub fn all_lengths(s: Settings) -> Lengths
    requires { Accepted s }
    ensures { lengths_yield (Ok result) ≡ accepted s }
{
    let cells = tables::n_mux(s.mode, s.occupancy) as u16;
    let n1 = formulas::cells_a(s.msc, s.levela, s.x) as u16;
    let n2 = cells - n1;
    let l1 = formulas::part_a(s.msc, s.levela, n1);
    let l2 = formulas::part_b(s.msc, s.levelb, n2);
    let vspp = formulas::part_vspp(s.msc, s.vspp, cells);
    Lengths {
        n1,
        n2,
        l1: l1 as u16,
        l2: l2 as u16,
        vspp: vspp as u16,
    }
}

// The interleaving's depth: five frames in long interleaving, one in short.
pub fn depth(s: Settings) -> usize
    ensures { result ≡ depth s }
{
    if s.interleaving == 0 { 5 } else { 1 }
}

// The length of every buffer that a caller lends.
#[tactic(auto, using(crate::proofs::Buffers::sizes_refuse))]
pub fn sizes(s: Settings) -> Result<Sizes, Refusal>
    ensures { sizes_yield result ≡ sizes_of s }
{
    check(s)?;
    Ok(all_sizes(s))
}

// The bytes of so many bits, each block and frame beginning a byte.
pub fn bytes_for(bits: usize) -> usize
    requires { bits ≤ 65535 }
    ensures { result ≡ bytes_for bits }
{
    formulas::round_up(bits, 8)
}

// The bits of a multiplex frame.
// Stays: the settings as for `all_lengths`.
pub fn frame_bits(s: Settings) -> usize
    requires { Accepted s }
    ensures { result ≡ frame_bits s }
{
    let l = all_lengths(s);
    l.vspp as usize + (l.l1 as usize + l.l2 as usize)
}

// The bytes of a multiplex frame.
// Stays: the settings as for `all_lengths`.
pub fn frame_bytes(s: Settings) -> usize
    requires { Accepted s }
    ensures { result ≡ frame_bytes s }
{
    bytes_for(frame_bits(s))
}

// The bytes of memory: a slot of N_MUX cells for each frame of the depth.
// Stays: the settings as for `all_lengths`.
pub fn memory_bytes(s: Settings) -> usize
    requires { Accepted s }
    ensures { result ≡ depth s * n_mux s }
{
    depth(s) * tables::n_mux(s.mode, s.occupancy)
}

// The same of settings that are not refused.
// Stays: the settings as for `all_lengths`.
pub fn all_sizes(s: Settings) -> Sizes
    requires { Accepted s }
    ensures { sizes_yield (Ok result) ≡ all_sizes s }
{
    let sdc = tables::n_sdc(s.mode, s.occupancy);
    let sdc_bytes = bytes_for(formulas::sdc_bits(s.sdc, sdc as u16));
    let frame = frame_bytes(s);
    let sfa = tables::n_sfa(s.mode, s.occupancy);
    let memory = memory_bytes(s);
    Sizes {
        sdcbytes: sdc_bytes as u32,
        mscbytes: (3 * frame) as u32,
        facnumbers: (3 * tables::FAC_NUMBERS) as u32,
        sdcnumbers: (2 * sdc) as u32,
        mscnumbers: (2 * sfa) as u32,
        memory: memory as u32,
    }
}
