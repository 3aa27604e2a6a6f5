// FAC block, SDC block and multiplex frame as blocks. 01 "From bits to cells".
ghost use Rattle.std.specs.Prelude.{◌≡◌, ◌<◌, length, get_or, replicate};
ghost use Rattle.settings.specs.Lengths.{n_sdc};
ghost use Rattle.patterns.specs.Loaded.{Allowed};
ghost use Rattle.channels.specs.Scheme.{SchemeAccepted};
ghost use Rattle.channels.specs.Once.{accepted_once};
ghost use Rattle.block.specs.Block.{no_level, six};
ghost use Rattle.channels.specs.Fac.{fac_block};
ghost use Rattle.channels.specs.Sdc.{sdc_levels, sdc_constellation, sdc_block};
ghost use Rattle.channels.specs.Msc.{msc_vspp, msc_protected, msc_steps, msc_levels, msc_constellation, msc_block};
ghost use Rattle.channels.specs.Clauses.{level_by};

use crate::Scheme;
use block::{Block, Constellation, Level};
use partlengths::tables::{R1_2, R1_3, R2_3, R3_5};
use partlengths::{formulas, tables};
use patterns::Pattern;
use patterns::table::{denominator, pattern, tail_pattern};

// t of the standard protected part's levels by MSC mode: 0 for a level that isn't interleaved, and behind the last one.
const MSC_STEPS: [[usize; 5]; 4] = [
    [0, 13, 21, 0, 0],
    [0, 13, 13, 21, 21],
    [13, 21, 0, 0, 0],
    [13, 21, 0, 0, 0],
];

fn msc_step(msc: u8, k: usize) -> usize
    requires { (msc < 4) × (k < 5) }
    ensures { result ≡ get_or (msc_steps msc) k 0 }
{
    MSC_STEPS[msc as usize][k]
}

// A place for a level that a block hasn't.
fn no_level() -> Level
    ensures { result ≡ no_level }
{
    let none = Pattern {
        columns: [0u8; 8],
        width: 0,
    };
    Level {
        bitsa: 0,
        bitsb: 0,
        patterna: none,
        patternb: none,
        tail: none,
        t: 0,
    }
}

// Room for six levels.
fn no_levels() -> [Level; 6]
    ensures { result ≡ replicate 6 no_level }
{
    let none = no_level();
    [none; 6]
}

// A scheme that is not refused: what is known of it goes along with it.
#[derive(Clone, Copy)]
struct Accepted {
    scheme: Scheme,
    ghost known: { SchemeAccepted scheme } by { accepted_once scheme },
}

impl Accepted {
    // A level by its coded bits in parts A and B, without the twelve that its tail takes at least.
    fn level_by(self, codeda: usize, codedb: usize, ratea: usize, rateb: usize, t: usize) -> Level
        requires { (ratea < 13) × (rateb < 13) }
        ensures { result ≡ level_by self.scheme.table codeda codedb ratea rateb t }
    {
        let scheme = self.scheme;
        let table = scheme.table;
        Level {
            bitsa: formulas::share(codeda, ratea),
            bitsb: formulas::share(codedb, rateb),
            patterna: pattern(&table, ratea),
            patternb: pattern(&table, rateb),
            tail: tail_pattern(codedb % denominator(rateb)),
            t,
        }
    }

    // Level k of a multiplex frame's standard protected part, or none.
    fn protected_level(self, k: usize) -> Level
        ensures { result ≡ get_or (msc_protected self.scheme) k no_level }
    {
        let settings = self.scheme.settings;
        if tables::rate_count(settings.msc, settings.levela) <= k {
            return no_level();
        }
        let n1 = formulas::cells_a(settings.msc, settings.levela, settings.x);
        let n2 = tables::n_mux(settings.mode, settings.occupancy) - n1;
        self.level_by(
            formulas::coded(settings.msc, n1 as u16),
            formulas::less_tail(formulas::coded(settings.msc, n2 as u16)),
            tables::rate(settings.msc, settings.levela, k),
            tables::rate(settings.msc, settings.levelb, k),
            msc_step(settings.msc, k),
        )
    }

    // The very strongly protected part: all its bits count with part A.
    fn vspp_level(self) -> Level
        ensures { result ≡ msc_vspp self.scheme }
    {
        let settings = self.scheme.settings;
        let n = tables::n_mux(settings.mode, settings.occupancy);
        let rate = tables::vspp_rate(settings.vspp);
        let coded = formulas::less_tail(formulas::coded(settings.msc, n as u16));
        let mut l = self.level_by(0, coded, rate, rate, 0);
        l.bitsa = l.bitsb;
        l.bitsb = 0;
        l
    }

    // Level i of a multiplex frame, or none.
    fn msc_level(self, i: usize) -> Level
        ensures { result ≡ get_or (msc_levels self.scheme) i no_level }
    {
        let settings = self.scheme.settings;
        if !formulas::hierarchical(settings.msc) {
            return self.protected_level(i);
        }
        if i == 0 {
            return self.vspp_level();
        }
        self.protected_level(i - 1)
    }

    // The levels of a multiplex frame.
    fn msc_levels(self) -> [Level; 6]
        ensures { result ≡ six (msc_levels self.scheme) }
    {
        let mut levels = no_levels();
        for i in 0..6 {
            levels[i] = self.msc_level(i);
        }
        levels
    }

    // The levels of an SDC block: two in 16-QAM, one in 4-QAM.
    fn sdc_levels(self, n: usize) -> [Level; 6]
        requires { n ≡ n_sdc self.scheme.settings }
        ensures { result ≡ six (sdc_levels self.scheme) }
    {
        let settings = self.scheme.settings;
        let coded = formulas::less_tail(2 * n);
        let mut levels = no_levels();
        if settings.sdc == 0 {
            levels[0] = self.level_by(0, coded, R1_3, R1_3, 13);
            levels[1] = self.level_by(0, coded, R2_3, R2_3, 21);
            return levels;
        }
        levels[0] = self.level_by(0, coded, R1_2, R1_2, 21);
        levels
    }
}

// The constellation by MSC mode.
#[tactic(auto, unfolding(crate::specs::Msc::msc_constellation))]
pub fn msc_constellation(msc: u8) -> Constellation
    requires { msc < 4 }
    ensures { result ≡ msc_constellation msc }
{
    match msc {
        0 => Constellation::Sm64,
        1 => Constellation::HmMix,
        2 => Constellation::HmSym,
        _ => Constellation::Qam16,
    }
}

// How many levels a multiplex frame has.
fn level_count(s: Scheme) -> usize
    ensures { result ≡ length (msc_levels s) }
{
    let count = tables::rate_count(s.settings.msc, s.settings.levela);
    if formulas::hierarchical(s.settings.msc) {
        return 1 + count;
    }
    count
}

// A multiplex frame.
// Stays: docs/PROMISES.md names it with a scheme, which its callers have as a field of a state; each of them would have to build an `Accepted` first.
pub fn msc_block(s: Scheme) -> Block
    requires { SchemeAccepted s }
    ensures { result ≡ msc_block s }
{
    let accepted = Accepted { scheme: s };
    let n = tables::n_mux(s.settings.mode, s.settings.occupancy);
    Block {
        vspp: formulas::part_vspp(s.settings.msc, s.settings.vspp, n as u16),
        levels: accepted.msc_levels(),
        count: level_count(s),
        constellation: msc_constellation(s.settings.msc),
        cells: n,
        parta: formulas::cells_a(s.settings.msc, s.settings.levela, s.settings.x),
    }
}

// The constellation by SDC mode.
pub fn sdc_constellation(sdc: u8) -> Constellation
    ensures { result ≡ sdc_constellation sdc }
{
    if sdc == 0 {
        return Constellation::Qam16;
    }
    Constellation::Qam4
}

// An SDC block.
// Stays: docs/PROMISES.md names it with a scheme, which its callers have as a field of a state; each of them would have to build an `Accepted` first.
pub fn sdc_block(s: Scheme) -> Block
    requires { SchemeAccepted s }
    ensures { result ≡ sdc_block s }
{
    let accepted = Accepted { scheme: s };
    let n = tables::n_sdc(s.settings.mode, s.settings.occupancy);
    Block {
        vspp: 0,
        levels: accepted.sdc_levels(n),
        count: (2 - s.settings.sdc) as usize,
        constellation: sdc_constellation(s.settings.sdc),
        cells: n,
        parta: 0,
    }
}

// An FAC block: one level, whose tail goes on with the 3/5 pattern.
pub fn fac_block(s: Scheme) -> Block
    requires { Allowed s.table }
    ensures { result ≡ fac_block s }
{
    let table = s.table;
    let p = pattern(&table, R3_5);
    let mut levels = no_levels();
    levels[0] = Level {
        bitsa: 0,
        bitsb: tables::FAC_BITS,
        patterna: p,
        patternb: p,
        tail: p,
        t: 21,
    };
    Block {
        vspp: 0,
        levels,
        count: 1,
        constellation: Constellation::Qam4,
        cells: tables::FAC_CELLS,
        parta: 0,
    }
}
