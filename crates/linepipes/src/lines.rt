// Jobs on lines.
use console::LineJob;
use linejobs::steps;
use pipes::input::read_line;
use pipes::output::{STDOUT_FILENO, say_line};
use turns::{End, input, turn};

// A line that has come.
fn pass_line(job: LineJob, line: &[u8]) -> Result<(), End> {
    let said = steps::line_step(job, line);
    let written = match &said {
        Ok(text) => io::write_all(STDOUT_FILENO, text.bytes()),
        Err(_) => true,
    };
    turn::after_write(said, written)
}

// The next line.
fn take_line(rt: HostRuntime, job: LineJob) -> Result<(), End> {
    let mut line = [0u8; 256];
    let gathered = read_line(&mut rt.stdin(), &mut line);
    input::after_line(gathered.count, gathered.seen)?;
    pass_line(job, &line[..gathered.count])
}

// Lines up to the first end; what is wrong with a line is said with its number, counted from 1.
pub fn run_lines(rt: HostRuntime, job: LineJob) {
    for index in 1..u64::MAX {
        if let Err(end) = take_line(rt, job) {
            say_line(end, index);
            if input::line_over(end) {
                return;
            }
        }
    }
}
