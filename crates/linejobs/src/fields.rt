// Lines of FAC fields and of FAC blocks. 02, S-1: the desk types fields.
ghost use Rattle.std.specs.Prelude.{◌≡◌, ℕ, List, ◌++◌};
ghost use Rattle.line.specs.Written.{line_end};
ghost use Rattle.turns.specs.Yield.{text_yield};
ghost use Rattle.numerals.specs.Digits.{hex_digits};
ghost use Rattle.linejobs.specs.Fields.{build_line, read_line};

use facfields::calls::{build, read};
use numerals::digits::{are_hex, put_hex, read_hex};
use numerals::numbers::{numbers, numbers_line};
use partlengths::tables::FAC_BYTES;
use settings::Settings;
use turns::Failure;
use words::text::Text;

// The line of a block.
#[tactic(auto, unfolding(line::specs::Written::line_end))]
fn block_text(block: &[u8; FAC_BYTES]) -> Text
    ensures { result ≡ hex_digits block.now ++ line_end }
{
    let mut text = Text::new();
    put_hex(&mut text, block);
    text.put(b"\n");
    text
}

// `fac-build`: fourteen numbers to the digits of a block.
#[tactic(auto, using(crate::proofs::Answered::too_long, crate::proofs::Answered::no_numbers, crate::proofs::Answered::build_bad, crate::proofs::Answered::build_through))]
pub fn build_line(s: Settings, line: &[u8]) -> Result<Text, Failure>
    ensures { (out : List ℕ) → text_yield result out ≡ build_line s line.now out }
{
    if 256 <= line.len() {
        return Err(Failure::Bad);
    }
    let Some(fields) = numbers(line) else {
        return Err(Failure::Bad);
    };
    let mut block = [0u8; FAC_BYTES];
    build(s, &fields, &mut block)?;
    Ok(block_text(&block))
}

// `fac-read`: the digits of a block to its fourteen numbers.
#[tactic(auto, using(crate::proofs::Answered::read_bad, crate::proofs::Answered::read_through))]
pub fn read_line(s: Settings, line: &[u8]) -> Result<Text, Failure>
    ensures { (out : List ℕ) → text_yield result out ≡ read_line s line.now out }
{
    if !are_hex(line, FAC_BYTES) {
        return Err(Failure::Bad);
    }
    let block = read_hex::<FAC_BYTES>(line);
    let mut fields = [0u32; 14];
    read(s, &block, &mut fields)?;
    Ok(numbers_line(&fields))
}
