// FAC blocks, SDC blocks and multiplex frames as blocks.
#![tactic(auto)]

use settings::Settings;

pub mod blocks;
pub mod tables;

// What a run's blocks are made by: its settings, and the puncturing table that it was begun with. 02 S-11.
#[derive(Clone, Copy)]
pub struct Scheme {
    pub settings: Settings,
    pub table: [u8; 196],
}

ghost use Rattle.channels.specs.Cases.{Cases};

// The marked cases of 01, proved of the definitions by one statement; the function is empty and promises it.
pub fn cases()
    ensures { Cases }
{}
