// Writes every point of the five constellations: the constellation, the numbers of level bits of its real and imaginary axis, and its coordinates.
#![tactic(auto)]

ghost use Rattle.std.specs.Prelude.{◌<◌, ◌≤◌};

use block::Constellation;
use mapping::points::map_axes;
use vectors::text::print;

// A coordinate behind a space, in one piece.
fn write_coordinate(v: i16) {
    print(match v {
        -7 => " -7",
        -5 => " -5",
        -3 => " -3",
        -1 => " -1",
        1 => " 1",
        3 => " 3",
        5 => " 5",
        7 => " 7",
        _ => " ?",
    });
}

// A line: the point of these numbers.
fn write_point(c: Constellation, n: u8, m: u8)
    requires { (n < 8) × (m < 8) }
{
    let mut cell = [0i16; 2];
    map_axes(c, &[n], &[m], &mut cell);
    print(format_args!("{} {n} {m}", c as u8));
    cell.into_iter().for_each(write_coordinate);
    print("\n");
}

// The points of a constellation with so many numbers an axis.
fn write_points(c: Constellation, numbers: u8)
    requires { numbers ≤ 8 }
{
    for n in 0..numbers {
        for m in 0..numbers {
            write_point(c, n, m);
        }
    }
}

fn main() {
    write_points(Constellation::Qam4, 2);
    write_points(Constellation::Qam16, 4);
    write_points(Constellation::Sm64, 8);
    write_points(Constellation::HmSym, 8);
    write_points(Constellation::HmMix, 8);
}
