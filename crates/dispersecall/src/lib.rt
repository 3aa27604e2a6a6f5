// The dispersal step on packed bits as a call. 02, S-6.
#![tactic(auto)]

ghost use Rattle.std.specs.Prelude.{◌≡◌};
ghost use Rattle.refusal.specs.Numbers.{answer};
ghost use Rattle.dispersecall.specs.Calls.{dispersed_bytes, disperse_yield, disperse_of};
ghost use Rattle.dispersecall.specs.Clauses.{Disperses};

use block::buffers::bit_buffer;
use dispersal::bits::disperse;
use dispersal::sequence::PERIOD;
use packing::bits::{pack, spare_zero, unpack};
use refusal::Refusal;

// The bytes and the bits of a piece.
const PIECE: usize = 4096;

const PIECE_BITS: usize = 32768;

// At most a block's bits, packed from the start of a byte.
fn disperse_piece(treated: u16, n: usize, bytes: &[u8], out: &mut [u8])
    requires { Disperses 36708 n bytes.now out.old }
    ensures { out.new ≡ dispersed_bytes treated n bytes.now }
{
    let mut bits = bit_buffer();
    unpack(bytes, &mut bits[0..n]);
    disperse(treated, &mut bits[0..n]);
    pack(&bits[0..n], out);
}

// All bits, in two pieces where they are more than one: treated and the first piece's bits may exceed 16 bits, their remainder doesn't.
fn disperse_accepted(treated: u16, n: usize, bytes: &[u8], out: &mut [u8])
    requires { Disperses 65535 n bytes.now out.old }
    ensures { out.new ≡ dispersed_bytes treated n bytes.now }
{
    if n <= PIECE_BITS {
        disperse_piece(treated, n, bytes, out);
        return;
    }
    let place = (treated as usize + PIECE_BITS) % PERIOD;
    disperse_piece(treated, PIECE_BITS, &bytes[0..PIECE], &mut out[0..PIECE]);
    disperse_piece(
        place as u16,
        n - PIECE_BITS,
        &bytes[PIECE..],
        &mut out[PIECE..],
    );
}

// The first `bits` of the packed bits, bit i added modulo 2 to p(treated + i), packed again. Refusals 9, 10 and 11, lowest number first.
// Stays: the parameters are those of the C function drm_disperse, in their order.
#[tactic(auto, unfolding(crate::specs::Calls::disperse_of, crate::specs::Calls::disperse_refusal, lists::specs::Bytes::bytes_for))]
pub fn disperse_bytes(treated: u16, bits: u16, bytes: &[u8], out: &mut [u8]) -> Result<(), Refusal>
    ensures { disperse_yield (answer result) out.new ≡ disperse_of treated bits bytes.now out.old }
{
    let n = bits as usize;
    let wanted = n.div_ceil(8);
    if bytes.len() != wanted {
        return Err(Refusal::InputLength);
    }
    if out.len() != wanted {
        return Err(Refusal::OutputLength);
    }
    if !spare_zero(bytes, n) {
        return Err(Refusal::SpareBit);
    }
    disperse_accepted(treated, n, bytes, out);
    Ok(())
}
