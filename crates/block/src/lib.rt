// A block in general: dispersal, partition, component code, bit interleaving and mapping over its levels. Definitions and laws, and working buffers.
#![tactic(auto)]

ghost use Rattle.std.specs.Prelude.{◌≡◌};
ghost use Rattle.block.specs.Block.{one_axis};
ghost use Rattle.block.specs.Mapping.{numbered};

use patterns::Pattern;

pub mod buffers;

// A level: its input bits in parts A and B, the puncturing patterns of both and of its tail, and the interleaver's t, 0 where it isn't interleaved.
// Stays: t is a number in the definitions over levels (`Levels.mixed`, `Fits.Mixes`, `Reading.unmixed`, `channels` `Msc.vspp_level`), and 0 there is no
// interleaving; with an Option these would be other definitions.
#[derive(Clone, Copy)]
pub struct Level {
    pub bitsa: usize,
    pub bitsb: usize,
    pub patterna: Pattern,
    pub patternb: Pattern,
    pub tail: Pattern,
    pub t: usize,
}

// The five constellations: 4-QAM, 16-QAM, and 64-QAM with standard, symmetrical hierarchical and mixture hierarchical mapping.
#[derive(Clone, Copy, Debug, PartialEq, Eq)]
pub enum Constellation {
    Qam4 = 0,
    Qam16 = 1,
    Sm64 = 2,
    HmSym = 3,
    HmMix = 4,
}

impl Constellation {
    // The constellation of a number; a number from 5 on is taken for 4-QAM's.
    #[tactic(auto, unfolding(crate::specs::Mapping::numbered))]
    pub fn numbered(n: u8) -> Constellation
        ensures { result ≡ numbered n }
    {
        match n {
            1 => Constellation::Qam16,
            2 => Constellation::Sm64,
            3 => Constellation::HmSym,
            4 => Constellation::HmMix,
            _ => Constellation::Qam4,
        }
    }
}

// A block (FAC block, SDC block or multiplex frame): how many of its bits are dispersed by themselves in front, its levels (room for six, and
// how many they are), its constellation, its cells, and how many of them are part A's.
// Stays: no heap, so a block has room for six levels, of which its definitions take the first `count`.
#[derive(Clone, Copy)]
pub struct Block {
    pub vspp: usize,
    pub levels: [Level; 6],
    pub count: usize,
    pub constellation: Constellation,
    pub cells: usize,
    pub parta: usize,
}

impl Block {
    // In HMmix each level has one axis only.
    #[tactic(auto, unfolding(crate::specs::Block::one_axis))]
    pub fn one_axis(&self) -> bool
        ensures { result ≡ one_axis self.now }
    {
        matches!(self.constellation, Constellation::HmMix)
    }
}
