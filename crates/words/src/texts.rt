// A refusal in words.
ghost use Rattle.std.specs.Prelude.{◌≡◌, ◌≤◌, length};
ghost use Rattle.words.specs.Words.{refusal_words, block_words};

// What a refusal's number says.
// Stays: docs/PROMISES.md names `settings_refused`, which says any number: 0 is `accepted`, and one that no refusal has is `unknown`.
#[tactic(auto, unfolding(crate::specs::Words::refusal_words, crate::specs::Words::words, crate::specs::Words::texts, console::specs::Text::bytes_in, lists::specs::Lists::table))]
pub fn refusal_words(number: u8) -> &'static [u8]
    ensures value { result.now ≡ refusal_words number }
    ensures short { length result.now ≤ 64 }
{
    match number {
        0 => b"accepted",
        1 => b"robustness mode not 0 to 3",
        2 => b"spectrum occupancy not allowed for the robustness mode",
        3 => b"MSC mode not 0 to 3",
        4 => b"protection level A or B not allowed for the MSC mode",
        5 => b"VSPP level not allowed for the MSC mode",
        6 => b"SDC mode or interleaving not 0 or 1",
        7 => b"too many bytes in part A",
        8 => b"memory of the wrong length",
        9 => b"an input of the wrong length",
        10 => b"an output of the wrong length",
        11 => b"a spare bit set",
        12 => b"state or memory out of order",
        13 => b"a cell that is no point of its constellation, or a wrong filler",
        14 => b"a block that no bits give",
        15 => b"a field too large for its bits or against the settings",
        16 => b"a wrong CRC",
        17 => b"a grid of the wrong length",
        18 => b"a hold file that is none of these settings",
        19 => b"parts of streams that do not fit the multiplex frame",
        20 => b"filling that is not zero",
        21 => b"a received value above 2",
        22 => b"a value that is infinite or no number, or a gain below zero",
        23 => b"a puncturing table that fails its test",
        24 => b"a plan or a super frame out of range",
        25 => b"a minute without a rule",
        26 => b"a minute with two rules",
        27 => b"part A or VSPP in use",
        _ => b"unknown",
    }
}

// What the block of a refusal 13 or 14 is: by its place, and the rows of the MSC by the refusal.
// Stays: docs/PROMISES.md names `report`, which says a block with any number of an `End`, so that the number is no `Refusal`.
#[tactic(auto, unfolding(crate::specs::Words::block_words, crate::specs::Words::block_text, crate::specs::Words::words, crate::specs::Words::texts, console::specs::Text::bytes_in, lists::specs::Lists::table))]
pub fn block_words(number: u8, block: u8) -> &'static [u8]
    ensures value { result.now ≡ block_words number block }
    ensures short { length result.now ≤ 64 }
{
    if block < 3 {
        b"FAC"
    } else if block == 3 {
        b"SDC"
    } else if number == 14 {
        b"multiplex frame"
    } else if block < 7 {
        b"MSC cells"
    } else {
        b"fillers"
    }
}
