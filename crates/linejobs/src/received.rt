// A line of received bits, and the line of the block nearest to them. 02, S-9.
ghost use Rattle.std.specs.Prelude.{◌≡◌, ℕ, List, false, IfNone, IfSome, length};
ghost use Rattle.nearest.specs.Fac.{all_values};
ghost use Rattle.turns.specs.Yield.{text_yield};
ghost use Rattle.linejobs.specs.Nearest.{value_of, values_in, block_line, nearest_line};

use nearest::fac::fac_nearest;
use numerals::digits::put_hex;
use partlengths::tables::{FAC_BYTES, FAC_NUMBERS};
use turns::Failure;
use words::text::Text;

// The value of a character: 0, 1, 2 for unknown, or none.
#[tactic(auto, unfolding(crate::specs::Nearest::value_of))]
fn value_of(byte: u8) -> Option<u8>
    ensures none { IfNone result (value_of byte ≡ 3) }
    ensures some { IfSome result (λ value. value ≡ value_of byte) }
{
    match byte {
        b'0' => Some(0),
        b'1' => Some(1),
        b'?' => Some(2),
        _ => None,
    }
}

// The values of a line, or none where a character has none.
fn read_values(line: &[u8]) -> Option<[u8; FAC_NUMBERS]>
    requires { length line.now ≡ 130 }
    ensures none { IfNone result (all_values (values_in line.now) ≡ false) }
    ensures some { IfSome result (λ values. values ≡ values_in line.now) }
{
    let mut values = [0u8; FAC_NUMBERS];
    for (i, byte) in line.iter().enumerate() {
        values[i] = value_of(*byte)?;
    }
    Some(values)
}

// The line of a block and its number of disagreements.
#[tactic(auto, using(std::proofs::Common::append_assoc), unfolding(crate::specs::Nearest::block_line, line::specs::Written::space, line::specs::Written::line_end))]
fn found_text(block: &[u8; FAC_BYTES], count: u16) -> Text
    ensures { result ≡ block_line block.now count }
{
    let mut text = Text::new();
    put_hex(&mut text, block);
    text.put(b" ");
    text.put_decimal(u64::from(count));
    text.put(b"\n");
    text
}

// What `desk nearest` makes of a line.
#[tactic(auto, using(crate::proofs::ReceivedValues::values_long, crate::proofs::Found::line_short, crate::proofs::Found::line_strange, crate::proofs::Found::line_found))]
pub fn nearest_line(line: &[u8]) -> Result<Text, Failure>
    ensures { (out : List ℕ) → text_yield result out ≡ nearest_line line.now out }
{
    if line.len() != FAC_NUMBERS {
        return Err(Failure::Bad);
    }
    let Some(values) = read_values(line) else {
        return Err(Failure::Bad);
    };
    let mut block = [0u8; FAC_BYTES];
    let mut count = [0u16; 1];
    let Ok(()) = fac_nearest(&values, &mut block, &mut count) else {
        return Err(Failure::Bad);
    };
    Ok(found_text(&block, count[0]))
}
