// Pseudo-random bits.
ghost use Rattle.std.specs.Prelude.{◌≡◌, length};
ghost use Rattle.vectors.specs.Draws.{next, state, cleared, drawn_block};

// The state after a state x. The state's modulus divides 2^64, so the sum may wrap.
#[tactic(auto, using(crate::proofs::Drawn::next_is))]
fn next(x: u64) -> u64
    ensures { result ≡ next x }
{
    x.wrapping_mul(1103515245).wrapping_add(12345) % 2147483648
}

// A block of so many bits is drawn byte by byte from the state, and then the spare bits of its last byte are cleared. The state after it is returned.
pub fn block(mut x: u64, bits: usize, bytes: &mut [u8]) -> u64
    ensures { (result ≡ state x (length bytes.old)) × (bytes.new ≡ drawn_block x bits (length bytes.old)) }
{
    for byte in bytes.iter_mut() {
        x = next(x);
        // x / 65536 mod 256, as second/README.md says which bits of a state are drawn.
        *byte = (x / 65536 % 256) as u8;
    }
    clear(bits, bytes);
    x
}

// Clears the spare bits of the last byte.
fn clear(bits: usize, bytes: &mut [u8])
    ensures { bytes.new ≡ cleared bits bytes.old }
{
    let spare = (8 - bits % 8) % 8;
    if let Some(last) = bytes.last_mut() {
        *last = *last >> spare << spare;
    }
}
