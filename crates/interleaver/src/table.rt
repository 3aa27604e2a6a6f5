// The places P(0) .. P(n - 1) as a table, made without a branch. 01 "Bit interleaving"; 001 clause 7.3.3.
ghost use Rattle.std.specs.Prelude.{◌≡◌, [], ◌∷◌, ◌++◌, ◌+◌, ◌*◌, ◌%◌};
ghost use Rattle.interleaver.specs.Tables.{places, Keeps, Kept, Leads, Tabulates};

use crate::order::{offset_of, size_of};

// A number becomes the table's next place: where it is below n the table's end goes on, else the next number takes its room.
fn keep(n: usize, x: usize, end: usize, out: &mut [u16]) -> usize
    requires { Keeps x end out.old }
    ensures { Kept n x end out.old result out.new }
{
    out[end] = x as u16;
    if x < n { end + 1 } else { end }
}

// The number of the walk to which a factor and an addend lead. s is a power of two, so that a mask takes the remainder.
fn ahead(factor: usize, addend: usize, s: usize, x: usize) -> usize
    requires { Leads factor addend s x }
    ensures { result ≡ (factor * x + addend) % s }
{
    (factor * x + addend) & (s - 1)
}

// The places, and a 0 after them. Four chains go over the walk side by side, each by four steps at once, so that no product waits for the one before it.
pub fn make_places(t: usize, n: usize, out: &mut [u16])
    requires { Tabulates t n out.old }
    ensures { out.new ≡ places t n ++ (0 ∷ []) }
{
    let s = size_of(n);
    let q = offset_of(s);
    let twice = t * t;
    let further = t * q + q;
    let fourth = twice * twice;
    let far = twice * further + further;
    let mut x = 0;
    let mut y = q;
    let mut z = ahead(t, q, s, q);
    let mut w = ahead(t, q, s, z);
    let mut end = 0;
    for _turn in 0..s / 4 {
        end = keep(n, x, end, out);
        end = keep(n, y, end, out);
        end = keep(n, z, end, out);
        end = keep(n, w, end, out);
        x = ahead(fourth, far, s, x);
        y = ahead(fourth, far, s, y);
        z = ahead(fourth, far, s, z);
        w = ahead(fourth, far, s, w);
    }
    out[n] = 0;
}
