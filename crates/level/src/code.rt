// One level coded, its parts interleaved, and added to labels with its weight. 01 "Component code" and "Bit interleaving".
// Stays, in this module: buffers that are written are lent as `&mut`; with a struct of these a clause must also say that each reference is still the
// same one. A struct of a level, its weight and its places would be built anew for each level (`multilevel`), from a slice of the block's table, and what
// is required of it is required against the lengths of labels and bits; docs/PROMISES.md names `code_level` and `read_level` with these arguments.
ghost use Rattle.std.specs.Prelude.{◌≡◌};
ghost use Rattle.std.proofs.lemmas.List.Edits.{sets};
ghost use Rattle.component.specs.Codeword.{encode};
ghost use Rattle.patterns.specs.Clauses.{pattern_of};
ghost use Rattle.level.specs.Clauses.{coded_over, coded_with_tail, CodesA, CodedA, EncodesB, CodesB, CodesLevel};
ghost use Rattle.labels.specs.Clauses.{added};
ghost use Rattle.block.specs.Levels.{mixed, stream};

use block::Level;
use component::code::Coder;
use encoder::segment::encode;
use labels::bits::add_part;

// Part A coded and added to the first of the labels.
fn code_a(
    l: Level,
    weight: u8,
    places: &[u16],
    a: &[u8],
    coded: &mut [u8],
    labels: &mut [u8],
) -> Coder
    requires { CodesA l weight places.now a.now coded.old labels.old }
    ensures coded_a { CodedA l weight a.now labels.old result.register result.at labels.new }
    ensures coded_after { coded.new ≡ sets coded.old 0 (encode (pattern_of l.patterna) 0 0 a.now) }
{
    let start = Coder { register: 0, at: 0 };
    let coder = encode(l.patterna, start, a, coded);
    let n = coder.at;
    add_part(l.t, weight, &places[0..n], &coded[0..n], &mut labels[0..n]);
    coder
}

// The coded bits of part B and of six zeros with the tail's pattern, written to the front of out.
fn encode_b(l: Level, register: u32, b: &[u8], out: &mut [u8])
    requires { EncodesB l register b.now out.old }
    ensures { out.new ≡ sets out.old 0 (coded_with_tail l register b.now) }
{
    let zeros = [0u8; 6];
    let coder = encode(l.patternb, Coder { register, at: 0 }, b, out);
    encode(l.tail, coder, &zeros, out);
}

// Part B with its tail coded and added to the labels.
fn code_b(
    l: Level,
    register: u32,
    weight: u8,
    places: &[u16],
    b: &[u8],
    coded: &mut [u8],
    labels: &mut [u8],
)
    requires { CodesB l register weight places.now b.now coded.old labels.old }
    ensures labels_after { labels.new ≡ added weight (mixed l.t (coded_with_tail l register b.now)) labels.old }
    ensures coded_after { coded.new ≡ sets coded.old 0 (coded_with_tail l register b.now) }
{
    encode_b(l, register, b, coded);
    let n = labels.len();
    add_part(l.t, weight, places, &coded[0..n], labels);
}

// A level's bits coded, parts A and B interleaved separately, and added to the labels with the level's weight. The register runs on from A into B.
pub fn code_level(
    l: Level,
    weight: u8,
    places: &[u16],
    a: &[u8],
    b: &[u8],
    coded: &mut [u8],
    labels: &mut [u8],
)
    requires { CodesLevel l weight places.now a.now b.now coded.old labels.old }
    ensures labels_after { labels.new ≡ added weight (stream l a.now b.now) labels.old }
    ensures coded_after { coded.new ≡ coded_over l a.now b.now coded.old }
{
    let coder = code_a(l, weight, places, a, coded, labels);
    let n = coder.at;
    code_b(
        l,
        coder.register,
        weight,
        &places[n..],
        b,
        coded,
        &mut labels[n..],
    );
}
