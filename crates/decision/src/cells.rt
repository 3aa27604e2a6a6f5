// A measured cell: whether it is refused, its point and its bits. 02, S-10.
ghost use Rattle.std.specs.Prelude.{◌≡◌, ◌/◌, ◌%◌, ◌^◌, ◌<◌};
ghost use Rattle.std.specs.Float.{float_is_finite};
ghost use Rattle.block.specs.Mapping.{constellation};
ghost use Rattle.decision.specs.Cells.{refused_cell, value_on, point_on, bit_on};
ghost use Rattle.decision.specs.Clauses.{OnCell, OnPoint};

use crate::axis::decide_axis;
use crate::{Measured, MeasuredCell};
use block::Constellation;
use mapping::points::axis_label;

// Whether a float is neither infinite nor not a number, as std's `is_finite` says.
// Stays: `is_finite` subtracts, and so raises the floating-point exception "invalid" for an infinity; a caller in C that has unmasked it would end there,
// where it is to be answered. Comparisons with infinities raise none.
fn finite(x: f32) -> bool
    ensures { result ≡ float_is_finite x }
{
    (f32::NEG_INFINITY < x) & (x < f32::INFINITY)
}

// Whether a cell is refused by 22.
pub fn refused(cell: MeasuredCell) -> bool
    ensures { result ≡ refused_cell cell }
{
    match cell {
        MeasuredCell::Pair(p) => !(finite(p.real) & finite(p.imaginary)),
        MeasuredCell::Fade(gain) => !finite(gain) | (gain < 0.0),
    }
}

// The value on the axis of number m, real before imaginary.
#[tactic(auto, unfolding(crate::specs::Cells::value_on))]
fn value_on(p: Measured, m: usize) -> f32
    ensures { result ≡ value_on p m }
{
    if m % 2 == 0 { p.real } else { p.imaginary }
}

// A cell's coordinate on the axis of number m of constellation c.
pub fn point(c: Constellation, cell: MeasuredCell, m: usize) -> i16
    requires { OnCell cell }
    ensures { result ≡ point_on (constellation c) cell m }
{
    match cell {
        MeasuredCell::Pair(p) => decide_axis(c, value_on(p, m)),
        MeasuredCell::Fade(_) => 0,
    }
}

// Binary digit l of a number.
fn digit(n: u8, l: usize) -> u8
    requires { l < 3 }
    ensures { result ≡ n / 2 ^ l % 2 }
{
    (n >> l) % 2
}

// A cell's level bit l on the axis of number m of constellation c, from its coordinate v there; 2 for unknown.
pub fn bit(c: Constellation, cell: MeasuredCell, m: usize, v: i16, l: usize) -> u8
    requires { OnPoint c cell m v l }
    ensures { result ≡ bit_on (constellation c) cell m l }
{
    match cell {
        MeasuredCell::Pair(p) => digit(axis_label(c, m % 2, v), l),
        MeasuredCell::Fade(_) => 2,
    }
}
