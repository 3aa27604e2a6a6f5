// Why a call refuses: every refusal by its name, and the number by which a caller in C knows it.
#![tactic(auto)]

ghost use Rattle.std.specs.Prelude.{◌≡◌};
ghost use Rattle.refusal.specs.Numbers.{number, answer};

// The refusals in the order of their numbers. 01 "Operations"; 02.
#[derive(Clone, Copy, Debug, PartialEq, Eq)]
pub enum Refusal {
    // Robustness mode not 0 to 3.
    Mode = 1,
    // Spectrum occupancy not allowed for the robustness mode.
    Occupancy = 2,
    // MSC mode not 0 to 3.
    MscMode = 3,
    // Protection level A or B not allowed for the MSC mode.
    Level = 4,
    // VSPP level not allowed for the MSC mode.
    VsppLevel = 5,
    // SDC mode or interleaving not 0 or 1.
    SdcOrInterleaving = 6,
    // Too many bytes in part A.
    PartA = 7,
    // Memory of the wrong length.
    MemoryLength = 8,
    // An input of the wrong length.
    InputLength = 9,
    // An output of the wrong length.
    OutputLength = 10,
    // A spare bit set.
    SpareBit = 11,
    // State or memory out of order.
    Order = 12,
    // A cell that is no point of its constellation, or a wrong filler.
    Cell = 13,
    // A block that no bits give.
    Block = 14,
    // A field too large for its bits or against the settings.
    Field = 15,
    // A wrong CRC.
    Crc = 16,
    // A grid of the wrong length.
    GridLength = 17,
    // A hold file that is none of these settings.
    HoldFile = 18,
    // Parts of streams that do not fit the multiplex frame.
    StreamParts = 19,
    // Filling that is not zero.
    Filling = 20,
    // A received value above 2.
    Received = 21,
    // A value that is infinite or no number, or a gain below zero.
    Measured = 22,
    // A puncturing table that fails its test.
    Table = 23,
    // A plan or a super frame out of range.
    PlanRange = 24,
    // A minute without a rule.
    NoRule = 25,
    // A minute with two rules.
    TwoRules = 26,
    // Part A or VSPP in use.
    InUse = 27,
    // Settings, a state, lengths, sizes, rules or a plan's answer of the wrong length.
    FixedLength = 255,
}

impl Refusal {
    // The number by which a caller in C knows a refusal.
    pub fn number(self) -> u8
        ensures { result ≡ number self }
    {
        self as u8
    }
}

// What a caller in C is answered: 0 for acceptance, and otherwise the refusal's number.
pub fn answer(outcome: Result<(), Refusal>) -> u8
    ensures { result ≡ answer outcome }
{
    match outcome {
        Ok(()) => 0,
        Err(refusal) => refusal.number(),
    }
}
