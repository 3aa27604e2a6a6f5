// The calls that build and read an FAC block. 02, S-1.
ghost use Rattle.std.specs.Prelude.{◌≡◌};
ghost use Rattle.refusal.specs.Numbers.{answer};
ghost use Rattle.facfields.specs.Build.{build_yield, build_of};
ghost use Rattle.facfields.specs.Read.{read_yield, read_of};

use facblocks::Fields;
use facblocks::blocks::{block_of, crc_right, fields_in, within};
use facblocks::layout::{FIELDS, agrees};
use facblocks::word::BLOCK_BYTES;
use refusal::Refusal;
use settings::Settings;
use settings::refusals::check;

// An FAC block from fourteen fields. Refusals 1 to 7, 9, 10 and 15, lowest number first.
#[tactic(auto, using(refusal::proofs::Positive::number_positive), unfolding(crate::specs::Build::build_of, crate::specs::Build::build_refusal, settings::specs::Refusal::first, facblocks::specs::Fields::field_count, facblocks::specs::Block::block_bytes))]
pub fn build(s: Settings, numbers: &[u32], block: &mut [u8]) -> Result<(), Refusal>
    ensures { build_yield (answer result) block.new ≡ build_of s numbers.now block.old }
{
    check(s)?;
    let Some(numbers) = numbers.as_array::<FIELDS>() else {
        return Err(Refusal::InputLength);
    };
    if block.len() != BLOCK_BYTES {
        return Err(Refusal::OutputLength);
    }
    let f = Fields::from(*numbers);
    if !(within(f) && agrees(s, f)) {
        return Err(Refusal::Field);
    }
    block.copy_from_slice(&block_of(f));
    Ok(())
}

// The fourteen fields of an FAC block. Refusals 1 to 7, 9, 10, 15 and 16, lowest number first.
#[tactic(auto, using(refusal::proofs::Positive::number_positive), unfolding(crate::specs::Read::read_of, crate::specs::Read::read_refusal, settings::specs::Refusal::first, facblocks::specs::Fields::field_count, facblocks::specs::Block::block_bytes))]
pub fn read(s: Settings, block: &[u8], numbers: &mut [u32]) -> Result<(), Refusal>
    ensures { read_yield (answer result) numbers.new ≡ read_of s block.now numbers.old }
{
    check(s)?;
    let Some(block) = block.as_array::<BLOCK_BYTES>() else {
        return Err(Refusal::InputLength);
    };
    if numbers.len() != FIELDS {
        return Err(Refusal::OutputLength);
    }
    let fields = fields_in(block);
    if !agrees(s, fields) {
        return Err(Refusal::Field);
    }
    if !crc_right(block) {
        return Err(Refusal::Crc);
    }
    numbers.copy_from_slice(&<[u32; FIELDS]>::from(fields));
    Ok(())
}
