// The settings of the lines. The functions promise nothing: the lines are compared by the gate with the stored text.
use crate::blocks::{Kind, block};
use settings::{Lengths, Settings, answers, refusals};
use vectors::{pairings, text};

// The number of the next line, and how many settings have been gone through.
#[derive(Clone, Copy)]
struct Place {
    line: u64,
    counter: usize,
}

// A line: settings, and the digests of the three blocks.
fn print(s: Settings, line: u64) {
    let s = pairings::with_sdc(s, (line % 2) as u8);
    let x = line.wrapping_add(1);
    text::settings(s);
    let fac = block(Kind::Fac, s, x);
    text::number(fac.digest);
    let sdc = block(Kind::Sdc, s, fac.x);
    text::number(sdc.digest);
    let frame = block(Kind::Frame, s, sdc.x);
    text::number(frame.digest);
    text::end();
}

// X by kind: 0, 1, half of the largest, the largest less 1, the largest.
fn x_of(s: Settings, kind: usize) -> u16 {
    match kind {
        0 => 0,
        1 => 1,
        2 => pairings::largest(s) / 2,
        3 => pairings::largest(s).wrapping_sub(1),
        _ => pairings::largest(s),
    }
}

// The settings of number k among all kinds, VSPP levels, levels B and A, MSC modes and pairings, if they are not refused.
fn kind_line(k: usize, at: Place) -> Place {
    let kind = k % 5;
    let s = pairings::settings_of(
        k / 1280,
        (k / 320 % 4) as u8,
        (k / 80 % 4) as u8,
        (k / 20 % 4) as u8,
        (k / 5 % 4) as u8,
    );
    if refusals::check(s).is_err() {
        return at;
    }
    let counter = at.counter % 5;
    let next = if kind == 4 {
        (counter + 1) % 5
    } else {
        counter
    };
    if 2 <= (counter + kind) % 5 {
        return Place {
            counter: next,
            ..at
        };
    }
    print(pairings::with_x(s, x_of(s, kind)), at.line);
    Place {
        line: at.line.wrapping_add(1),
        counter: next,
    }
}

// Every pairing, MSC mode and levels, each with two of five X. Gives the number of the next line.
pub fn levels_and_x() -> u64 {
    let mut at = Place {
        line: 0,
        counter: 0,
    };
    for k in 0..20480 {
        at = kind_line(k, at);
    }
    at.line
}

fn power_of_two(n: u16) -> bool {
    n.count_ones() == 1
}

// The lines of settings with each X whose N1 differs from the one before and makes an interleaver's size a power of two.
fn powers(s: Settings, mut line: u64) -> u64 {
    let mut last = 0;
    for x in 1..65535 {
        let Ok(lengths) = answers::lengths(pairings::with_x(s, x)) else {
            return line;
        };
        line = power_line(s, x, last, lengths, line);
        last = lengths.n1;
    }
    line
}

// A line if N1 differs from the last one and it or N2 is a power of two.
fn power_line(s: Settings, x: u16, last: u16, lengths: Lengths, line: u64) -> u64 {
    if lengths.n1 == last || !power_of_two(lengths.n1) && !power_of_two(lengths.n2) {
        return line;
    }
    print(pairings::with_x(s, x), line);
    line.wrapping_add(1)
}

// The same for every pairing, MSC mode and level A, with level B the same and VSPP level 0.
pub fn powers_of_two(mut line: u64) {
    for k in 0..256 {
        let level = (k % 4) as u8;
        let s = pairings::settings_of(k / 16, (k / 4 % 4) as u8, level, level, 0);
        if refusals::check(s).is_ok() {
            line = powers(s, line);
        }
    }
}
