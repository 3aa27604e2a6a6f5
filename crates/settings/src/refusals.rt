// Refusals 1 to 7, lowest number first. 01 "Operations", Lengths.
ghost use Rattle.std.specs.Prelude.{◌≡◌};
ghost use Rattle.partlengths.specs.Rates.{top_level};
ghost use Rattle.refusal.specs.Numbers.{answer};
ghost use Rattle.settings.specs.Refusal.{paired, range_refusal, refusal};

use crate::Settings;
use partlengths::{formulas, tables};
use refusal::Refusal;

// Occupancy 0 to 5; modes C and D have only 3 and 5.
#[tactic(auto, unfolding(crate::specs::Refusal::paired))]
fn paired(mode: u8, occupancy: u8) -> bool
    ensures { result ≡ paired mode occupancy }
{
    occupancy < 6 && (mode < 2 || occupancy == 3 || occupancy == 5)
}

// The greatest protection level of parts A and B.
#[tactic(auto, unfolding(partlengths::specs::Rates::top_level))]
pub fn top_level(msc: u8) -> u8
    ensures { result ≡ top_level msc }
{
    if msc == 3 { 1 } else { 3 }
}

// Whether settings are refused, and by which of 1 to 6.
#[tactic(auto, unfolding(crate::specs::Refusal::range_refusal, crate::specs::Refusal::first))]
fn check_ranges(s: Settings) -> Result<(), Refusal>
    ensures { answer result ≡ range_refusal s }
{
    let top = top_level(s.msc);
    if 3 < s.mode {
        return Err(Refusal::Mode);
    }
    if !paired(s.mode, s.occupancy) {
        return Err(Refusal::Occupancy);
    }
    if 3 < s.msc {
        return Err(Refusal::MscMode);
    }
    if top < s.levela || top < s.levelb {
        return Err(Refusal::Level);
    }
    if 3 < s.vspp || !formulas::hierarchical(s.msc) && s.vspp != 0 {
        return Err(Refusal::VsppLevel);
    }
    if 1 < s.sdc || 1 < s.interleaving {
        return Err(Refusal::SdcOrInterleaving);
    }
    Ok(())
}

// Whether settings are refused, and by which of 1 to 7; N1 is worked out only where 1 to 6 do not apply.
#[tactic(auto, using(refusal::proofs::Positive::number_positive), unfolding(crate::specs::Refusal::refusal, crate::specs::Refusal::first))]
pub fn check(s: Settings) -> Result<(), Refusal>
    ensures { answer result ≡ refusal s }
{
    check_ranges(s)?;
    let cells = tables::n_mux(s.mode, s.occupancy);
    if cells - 20 < formulas::cells_a(s.msc, s.levela, s.x) {
        return Err(Refusal::PartA);
    }
    Ok(())
}
