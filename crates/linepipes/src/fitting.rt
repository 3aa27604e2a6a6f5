// The job that says how long a number of bytes takes.
use fitjobs::text;
use pipes::arguments::argument;
use pipes::output::{STDOUT_FILENO, say_line, say_settings, say_usage};
use settings::Settings;
use turns::{End, Failure};

fn print(text: &[u8]) {
    if !io::write_all(STDOUT_FILENO, text) {
        say_line(End::Unwritten, 1);
    }
}

// The answer to a number of bytes.
fn answer(s: Settings, word: &[u8]) {
    match text::fit(s, word) {
        Ok(said) => print(said.bytes()),
        Err(Failure::Refused(number, _)) => say_settings(number),
        Err(Failure::Bad) => say_usage(),
    }
}

// The same with the third argument.
pub fn begin(rt: HostRuntime, s: Settings) {
    let mut word = [0u8; 32];
    let n = argument(rt, 3, &mut word);
    answer(s, &word[..n]);
}
