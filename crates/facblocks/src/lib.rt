// FAC blocks from their fields, and the fields of a block. 02, S-1; 001 clauses 6.3.3 to 6.3.5.
#![tactic(auto)]

pub mod blocks;
pub mod layout;
pub mod word;

// The fields of an FAC block, without the reserved ones. 001 clauses 6.3.3 and 6.3.4. Any value may come in.
#[derive(Clone, Copy)]
pub struct Fields {
    // base/enhancement flag
    pub enhancement: u32,
    pub identity: u32,
    // spectrum occupancy
    pub occupancy: u32,
    // interleaver depth flag: 0 long, 1 short
    pub interleaving: u32,
    // MSC mode
    pub msc: u32,
    // SDC mode: 0 16-QAM, 1 4-QAM
    pub sdc: u32,
    // number of services
    pub services: u32,
    // reconfiguration index
    pub reconfiguration: u32,
    // service identifier
    pub service: u32,
    // short identifier
    pub shortid: u32,
    // CA indication
    pub ca: u32,
    pub language: u32,
    // audio/data flag
    pub dataflag: u32,
    // service descriptor
    pub descriptor: u32,
}
