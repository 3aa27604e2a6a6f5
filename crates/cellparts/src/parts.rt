// Labels of level bits to cells in two parts. 01 "Mapping".
ghost use Rattle.std.specs.Prelude.{◌≡◌};
ghost use Rattle.block.specs.Mapping.{constellation, weave};
ghost use Rattle.mapping.specs.Labels.{coordinates};
ghost use Rattle.cellparts.specs.Clauses.{MapsParts, MapsAxesParts};

use block::Constellation;
use mapping::points::{map_axes, map_cells};

// Part A's labels to the first n1 cells, part B's to the cells from there on by the same step.
pub fn map_parts(c: Constellation, n1: usize, labels: &[u8], out: &mut [i16])
    requires { MapsParts c n1 labels.now out.old }
    ensures { out.new ≡ coordinates (constellation c) labels.now }
{
    let at = 2 * n1;
    map_cells(c, &labels[0..at], &mut out[0..at]);
    map_cells(c, &labels[at..], &mut out[at..]);
}

// The same, where each axis has labels of its own.
pub fn map_axes_parts(c: Constellation, n1: usize, re: &[u8], im: &[u8], out: &mut [i16])
    requires { MapsAxesParts n1 re.now im.now out.old }
    ensures { out.new ≡ coordinates (constellation c) (weave re.now im.now) }
{
    let at = 2 * n1;
    map_axes(c, &re[0..n1], &im[0..n1], &mut out[0..at]);
    map_axes(c, &re[n1..], &im[n1..], &mut out[at..]);
}
