// What is said beside a run's report: what was lost, and what is wrong with a hold file.
ghost use Rattle.std.specs.Prelude.{◌≡◌};
ghost use Rattle.endings.specs.Endings.{lost_line, file_line};

use crate::Lost;
use turns::End;
use words::report::{failed, say_why};
use words::text::Text;

// What a run that read on has lost. 02, S-13.
#[tactic(auto, using(std::proofs::Common::append_assoc), unfolding(crate::specs::Endings::lost_line, console::specs::Text::bytes_in, lists::specs::Lists::table))]
pub fn lost_said(lost: Lost) -> Text
    ensures { result ≡ lost_line lost }
{
    let mut text = Text::new();
    text.put(b"lost: FAC ");
    text.put_decimal(lost.fac);
    text.put(b", SDC ");
    text.put_decimal(lost.sdc);
    text.put(b", frames ");
    text.put_decimal(lost.frames);
    text.put(b"\n");
    text
}

// What is wrong with a hold file, if anything is. 02, S-7.
#[tactic(auto, using(std::proofs::Common::append_assoc), unfolding(crate::specs::Endings::file_line, console::specs::Text::bytes_in, lists::specs::Lists::table))]
pub fn file_said(end: End) -> Text
    ensures { result ≡ file_line end }
{
    let mut text = Text::new();
    if failed(end) {
        text.put(b"hold file: ");
        say_why(&mut text, end);
        text.put(b"\n");
    }
    text
}
