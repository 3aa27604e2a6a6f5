// Level bits to coordinates and back. 01 "Mapping"; 001 clause 7.4.
ghost use Rattle.std.specs.Prelude.{◌≡◌, ◌<◌, ◌%◌};
ghost use Rattle.block.specs.Mapping.{constellation, axis, weave};
ghost use Rattle.block.specs.Reading.{place_of, labels_of};
ghost use Rattle.mapping.specs.Labels.{coordinates, axis_labels};
ghost use Rattle.mapping.specs.Labellings.{of_axis, coordinate_by, LabellingFits, Labels};
ghost use Rattle.mapping.specs.Axes.{axis_number};
ghost use Rattle.mapping.specs.Clauses.{labels_by, label_by, Maps, MapsAxes, Unmaps, UnmapsAxis};

use block::Constellation;

// The axes of a constellation.
#[derive(Clone, Copy)]
enum Axis {
    Real,
    Imaginary,
}

// The axis of a coordinate by its number in a list of them, real before imaginary.
#[tactic(auto, unfolding(crate::specs::Axes::axis_number))]
fn axis_of(j: usize) -> Axis
    ensures { axis_number result ≡ j % 2 }
{
    if j % 2 == 0 {
        Axis::Real
    } else {
        Axis::Imaginary
    }
}

// An axis's labelling in numbers: coordinates go down from size - 1, by the label, by its bits that `twice` has once more, and by 7 more for each that
// `odd` has.
#[derive(Clone, Copy)]
struct Labelling {
    size: u8,
    twice: u8,
    odd: u8,
}

const QAM4: Labelling = Labelling {
    size: 2,
    twice: 7,
    odd: 0,
};

const QAM16: Labelling = Labelling {
    size: 4,
    twice: 7,
    odd: 0,
};

const STANDARD64: Labelling = Labelling {
    size: 8,
    twice: 7,
    odd: 0,
};

const SYMMETRIC64: Labelling = Labelling {
    size: 8,
    twice: 0,
    odd: 1,
};

// What belongs to a constellation's axis, of one thing for each rule.
#[tactic(auto, unfolding(crate::specs::Labellings::of_axis, crate::specs::Axes::axis_number))]
fn of_axis<T: Copy>(c: Constellation, a: Axis, qam4: T, qam16: T, standard: T, symmetric: T) -> T
    ensures { result ≡ of_axis c (axis_number a) qam4 qam16 standard symmetric }
{
    match c {
        Constellation::Qam4 => qam4,
        Constellation::Qam16 => qam16,
        Constellation::Sm64 => standard,
        Constellation::HmSym => symmetric,
        Constellation::HmMix => match a {
            Axis::Real => symmetric,
            Axis::Imaginary => standard,
        },
    }
}

// The labelling of a constellation's axis.
fn axis_labelling(c: Constellation, a: Axis) -> Labelling
    ensures { Labels result.size result.twice result.odd (axis (constellation c) (axis_number a)) }
{
    of_axis(c, a, QAM4, QAM16, STANDARD64, SYMMETRIC64)
}

// The coordinate of a label: worked out, not looked up, so that many labels are mapped at once.
fn coordinate_of(l: Labelling, label: u8) -> i16
    requires { LabellingFits l.size l.odd × (label < 8) }
    ensures { result ≡ coordinate_by l.size l.twice l.odd label }
{
    if label < l.size {
        return (l.size - 1) as i16 - (label + (label & l.twice) + 7 * (label & l.odd)) as i16;
    }
    0
}

// Labels i0 + 2 × i1 + 4 × i2, flat, real before imaginary, to coordinates, where both axes have one labelling.
pub fn map_cells(c: Constellation, labels: &[u8], out: &mut [i16])
    requires { Maps c labels.now out.old }
    ensures { out.new ≡ coordinates (constellation c) labels.now }
{
    let l = axis_labelling(c, Axis::Real);
    for k in 0..labels.len() {
        out[k] = coordinate_of(l, labels[k]);
    }
}

// Labels of the real and of the imaginary axis to coordinates.
pub fn map_axes(c: Constellation, re: &[u8], im: &[u8], out: &mut [i16])
    requires { MapsAxes re.now im.now out.old }
    ensures { out.new ≡ coordinates (constellation c) (weave re.now im.now) }
{
    let real = axis_labelling(c, Axis::Real);
    let imaginary = axis_labelling(c, Axis::Imaginary);
    for k in 0..re.len() {
        out[2 * k] = coordinate_of(real, re[k]);
        out[2 * k + 1] = coordinate_of(imaginary, im[k]);
    }
}

// The labels of an axis by a coordinate's four lowest binary digits; the first one stands for what is no coordinate.
const LABELS4: [u8; 16] = [2, 0, 2, 2, 2, 2, 2, 2, 2, 2, 2, 2, 2, 2, 2, 1];

const LABELS16: [u8; 16] = [4, 1, 4, 0, 4, 4, 4, 4, 4, 4, 4, 4, 4, 3, 4, 2];

const LABELS_STANDARD64: [u8; 16] = [8, 3, 8, 2, 8, 1, 8, 0, 8, 7, 8, 6, 8, 5, 8, 4];

const LABELS_SYMMETRIC64: [u8; 16] = [8, 6, 8, 4, 8, 2, 8, 0, 8, 7, 8, 5, 8, 3, 8, 1];

// The labels of a constellation's axis.
fn axis_labels(c: Constellation, a: Axis) -> [u8; 16]
    ensures { result ≡ labels_by (axis (constellation c) (axis_number a)) }
{
    of_axis(
        c,
        a,
        LABELS4,
        LABELS16,
        LABELS_STANDARD64,
        LABELS_SYMMETRIC64,
    )
}

// The number of a coordinate's level bits. By a table, since a processor does not foresee jumps that follow cells.
fn label_of(labels: &[u8; 16], v: i16) -> u8
    ensures { result ≡ label_by labels.now v }
{
    if (-9 < v) & (v < 8) {
        return labels[(v & 15) as usize];
    }
    labels[0]
}

// The number of a coordinate's level bits on an axis of a constellation.
pub fn axis_label(c: Constellation, a: usize, v: i16) -> u8
    requires { a < 2 }
    ensures { result ≡ place_of (axis (constellation c) a) v }
{
    label_of(&axis_labels(c, axis_of(a)), v)
}

// Coordinates, real before imaginary, back to labels, where both axes have one labelling.
pub fn unmap_cells(c: Constellation, cells: &[i16], out: &mut [u8])
    requires { Unmaps c cells.now out.old }
    ensures { out.new ≡ labels_of (constellation c) cells.now }
{
    let labels = axis_labels(c, Axis::Real);
    for k in 0..out.len() {
        out[k] = label_of(&labels, cells[k]);
    }
}

// The coordinates of one axis back to its labels.
pub fn unmap_axis(c: Constellation, a: usize, cells: &[i16], out: &mut [u8])
    requires { UnmapsAxis a cells.now out.old }
    ensures { out.new ≡ axis_labels a (labels_of (constellation c) cells.now) }
{
    let labels = axis_labels(c, axis_of(a));
    for k in 0..out.len() {
        out[k] = label_of(&labels, cells[2 * k + a]);
    }
}
