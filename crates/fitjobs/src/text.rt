// The three numbers with what they are, and the time on air.
ghost use Rattle.std.specs.Prelude.{◌≡◌, ℕ, ◌++◌, ◌+◌, ◌≤◌, List, length};
ghost use Rattle.line.specs.Written.{decimal};
ghost use Rattle.turns.specs.Yield.{text_yield};
ghost use Rattle.fitjobs.specs.Fit.{fit_text, fit_of};

use crate::argument::count;
use howlong::calls::how_long;
use settings::Settings;
use turns::Failure;
use words::text::Text;

// A number, and what it is.
#[tactic(auto, using(std::proofs::Common::append_assoc))]
fn put_part(text: &mut Text, n: u32, what: &[u8])
    requires { length text.old + (20 + length what.now) ≤ 1024 }
    ensures put { text.new ≡ text.old ++ (decimal n ++ what.now) }
    ensures room { length text.new ≤ length text.old + (20 + length what.now) }
{
    text.put_decimal(u64::from(n));
    text.put(what);
}

// Super frames, memory and zero bits, and the time of the super frames.
fn fit_text(numbers: &[u32; 3]) -> Text
    ensures { result ≡ fit_text numbers.now }
{
    let n = numbers[0];
    let tenths = 12 * (n % 50);
    let mut text = Text::new();
    put_part(&mut text, n, b" super frames with the closing\n");
    put_part(&mut text, numbers[1], b" bytes of memory\n");
    put_part(&mut text, numbers[2], b" zero bits after the last byte\n");
    put_part(&mut text, n / 3000, b" hours ");
    put_part(&mut text, n / 50 % 60, b" minutes ");
    put_part(&mut text, tenths / 10, b".");
    put_part(&mut text, tenths % 10, b" seconds on air\n");
    text
}

// `fit`: what a number of bytes takes.
pub fn fit(s: Settings, word: &[u8]) -> Result<Text, Failure>
    ensures { (out : List ℕ) → text_yield result out ≡ fit_of s word.now out }
{
    if !((0 < word.len()) & (word.len() < 32)) {
        return Err(Failure::Bad);
    }
    let Some(bytes) = count(word) else {
        return Err(Failure::Bad);
    };
    let mut numbers = [0u32; 3];
    how_long(s, bytes, &mut numbers)?;
    Ok(fit_text(&numbers))
}
