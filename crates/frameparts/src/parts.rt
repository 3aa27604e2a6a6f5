// Logical frames in their two orders: each part A and then part B, as they are lent, and part A of each stream before part B of each, as in a multiplex frame.
ghost use Rattle.std.specs.Prelude.{◌≡◌, ◌++◌, ◌-◌, ◌≤◌, length, take, drop};
ghost use Rattle.std.proofs.lemmas.List.Edits.{sets};
ghost use Rattle.frameparts.specs.Streams.{shares_in, sums, lent_in, lent_of, parts_a, parts_b, frames_in};
ghost use Rattle.frameparts.specs.Clauses.{Puts, Lays};

use crate::Share;

// The bytes of all parts A and of all parts B: of each stream two numbers.
pub fn sums(numbers: &[u16]) -> Share
    requires { length numbers.now ≤ 8 }
    ensures value { result ≡ sums (shares_in numbers.now) }
    ensures a_bound { (result.a ≤ 524280) × (result.b ≤ 524280) }
{
    let mut a = 0;
    let mut b = 0;
    for share in numbers.chunks_exact(2) {
        a += share[0] as usize;
        b += share[1] as usize;
    }
    Share { a, b }
}

// A logical frame with a bytes of part A: part A from place `toa` on, part B from place `tob` on.
// Stays: both parts lie in one buffer that is written; lent as two slices it would be taken apart by `split_at_mut` anew for each stream.
fn put_logical(frame: &[u8], a: usize, toa: usize, tob: usize, parts: &mut [u8])
    requires { Puts frame.now a toa tob parts.old }
    ensures { parts.new ≡ sets (sets parts.old toa (take a frame.now)) tob (drop a frame.now) }
{
    let b = frame.len() - a;
    parts[toa..toa + a].copy_from_slice(&frame[0..a]);
    parts[tob..tob + b].copy_from_slice(&frame[a..]);
}

// Part A of each stream, then part B of each, from the logical frames.
// Stays: three places are counted along; streams differ in length, so that no chunks of one size give them.
pub fn lay_parts(numbers: &[u16], streams: &[u8], parts: &mut [u8])
    requires { Lays numbers.now streams.now parts.old }
    ensures { parts.new ≡ parts_a (lent_in (shares_in numbers.now) streams.now)
        ++ parts_b (lent_in (shares_in numbers.now) streams.now) }
{
    let mut toa = 0;
    let mut tob = sums(numbers).a;
    let mut from = 0;
    for share in numbers.chunks_exact(2) {
        let a = share[0] as usize;
        let b = share[1] as usize;
        put_logical(&streams[from..from + (a + b)], a, toa, tob, parts);
        toa += a;
        tob += b;
        from += a + b;
    }
}

// A logical frame with a bytes of part A: part A stands from place `froma` on, part B from place `fromb` on.
// Stays: it writes the frame that `put_logical` reads; one function for both would be handed a closure that copies, and the two places all the same.
fn take_logical(parts: &[u8], froma: usize, fromb: usize, a: usize, frame: &mut [u8])
    requires { Puts frame.old a froma fromb parts.now }
    ensures { frame.new
        ≡ take a (drop froma parts.now) ++ take (length frame.old - a) (drop fromb parts.now) }
{
    let b = frame.len() - a;
    frame[0..a].copy_from_slice(&parts[froma..froma + a]);
    frame[a..].copy_from_slice(&parts[fromb..fromb + b]);
}

// The logical frames from part A of each stream and then part B of each.
// Stays: laying writes the parts and taking the logical frames, so that one function for both would take a closure over both buffers.
pub fn take_parts(numbers: &[u16], parts: &[u8], streams: &mut [u8])
    requires { Lays numbers.now parts.now streams.old }
    ensures { streams.new ≡ lent_of (frames_in (shares_in numbers.now) parts.now
        (drop (sums (shares_in numbers.now)).a parts.now)) }
{
    let mut froma = 0;
    let mut fromb = sums(numbers).a;
    let mut to = 0;
    for share in numbers.chunks_exact(2) {
        let a = share[0] as usize;
        let b = share[1] as usize;
        take_logical(parts, froma, fromb, a, &mut streams[to..to + (a + b)]);
        froma += a;
        fromb += b;
        to += a + b;
    }
}
