// Level bits with their weights: interleaved and added to labels, taken out again and put back. 01 "Bit interleaving" and "Mapping".
// Stays, in this module: labels and bits that are written are lent as `&mut`; with a struct of these a clause must also say that each reference is still
// the same one. Of t, weight and places a struct would be built anew for each part of each level (`level`, three calls), and what is required of them
// (`Gathers`, `Scatters`, `Ordered`) is their length against that of the labels, which are lent beside them.
ghost use Rattle.std.specs.Prelude.{◌≡◌, ◌/◌, ◌%◌, length};
ghost use Rattle.block.specs.Levels.{mixed};
ghost use Rattle.block.specs.Reading.{taken, unmixed};
ghost use Rattle.labels.specs.Clauses.{added, gathered, scattered, Weight, AddsPart, TakesPart, Ordered, Gathers, Scatters};

// Bits as they are, times their weight, added to the labels.
fn add_plain(weight: u8, bits: &[u8], labels: &mut [u8])
    requires { AddsPart 0 weight bits.now labels.old }
    ensures { labels.new ≡ added weight bits.now labels.old }
{
    for i in 0..bits.len() {
        labels[i] = labels[i] + weight * bits[i];
    }
}

// Label i becomes itself + weight × bit places[i].
fn gather(weight: u8, places: &[u16], bits: &[u8], labels: &mut [u8])
    requires { Gathers weight places.now bits.now labels.old }
    ensures { labels.new ≡ added weight (gathered places.now bits.now) labels.old }
{
    for i in 0..labels.len() {
        let p = places[i] as usize;
        labels[i] = labels[i] + weight * bits[p];
    }
}

// A part's bits, interleaved by the table of their places or as they are, times their weight, added to the labels.
pub fn add_part(t: usize, weight: u8, places: &[u16], bits: &[u8], labels: &mut [u8])
    requires { AddsPart t weight bits.now labels.old × Ordered t (length labels.old) places.now }
    ensures { labels.new ≡ added weight (mixed t bits.now) labels.old }
{
    if t == 0 {
        add_plain(weight, bits, labels);
        return;
    }
    gather(weight, places, bits, labels);
}

// The bit with that weight in a label.
fn weighed_bit(label: u8, weight: u8) -> u8
    requires { Weight weight }
    ensures { result ≡ label / weight % 2 }
{
    if label & weight == 0 { 0 } else { 1 }
}

// The bits with that weight in the labels, as they are.
fn take_plain(weight: u8, labels: &[u8], out: &mut [u8])
    requires { TakesPart 0 weight labels.now out.old }
    ensures { out.new ≡ taken weight labels.now }
{
    for i in 0..labels.len() {
        out[i] = weighed_bit(labels[i], weight);
    }
}

// Output places[i] becomes the bit with that weight in label i.
fn scatter(weight: u8, places: &[u16], labels: &[u8], out: &mut [u8])
    requires { Scatters weight places.now labels.now out.old }
    ensures { out.new ≡ scattered places.now (taken weight labels.now) out.old }
{
    for i in 0..labels.len() {
        let p = places[i] as usize;
        out[p] = weighed_bit(labels[i], weight);
    }
}

// The bits with that weight in the labels, put back to their places by the table of these or as they are.
// Stays: the way back of `add_part`, with two functions of its own; one function for both ways would be lent them as closures.
pub fn take_part(t: usize, weight: u8, places: &[u16], labels: &[u8], out: &mut [u8])
    requires { TakesPart t weight labels.now out.old × Ordered t (length labels.now) places.now }
    ensures { out.new ≡ unmixed t (taken weight labels.now) }
{
    if t == 0 {
        take_plain(weight, labels, out);
        return;
    }
    scatter(weight, places, labels, out);
}
