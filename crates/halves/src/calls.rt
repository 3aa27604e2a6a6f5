// Two halves of a multiplex frame to its cells. 02, S-6.
// Stays, in this module: buffers stand one by one, since a clause would name one in a struct `halves.now.first.now` and not `first.now`.
ghost use Rattle.std.specs.Prelude.{◌≡◌, ◌-◌, ◌≤◌, ◌++◌, length};
ghost use Rattle.refusal.specs.Numbers.{answer};
ghost use Rattle.block.specs.Packing.{unpacked};
ghost use Rattle.block.specs.Dispersal.{dispersed_parts};
ghost use Rattle.block.specs.Block.{cells_of};
ghost use Rattle.channels.specs.Msc.{msc_block};
ghost use Rattle.halves.specs.Halves.{halves_long, joined_bits, halves_refusal, halves_yield, halves_of};
ghost use Rattle.halves.specs.Clauses.{Treats, HalvesFit};

use block::buffers::bit_buffer;
use blockcoder::code::code_bits;
use channels::Scheme;
use channels::blocks::msc_block;
use channels::tables::check_scheme;
use dispersal::parts::unpack_parts;
use packing::bits::spare_zero;
use partlengths::tables::n_mux;
use refusal::Refusal;
use settings::answers::{bytes_for, frame_bits};

// Whether halves of so many bytes are those of a frame of `bits` bits that is cut at bit `cut`.
#[tactic(auto, unfolding(crate::specs::Halves::halves_long))]
fn halves_long(bits: usize, cut: usize, first: usize, second: usize) -> bool
    requires { bits ≤ 65535 }
    ensures { result ≡ halves_long bits cut first second }
{
    cut <= bits && first == bytes_for(cut) && second == bytes_for(bits - cut)
}

// Whether halves are refused: by 1 to 7, 23, 9, 10 or 11, in this order.
fn check(s: Scheme, cut: usize, first: &[u8], second: &[u8], numbers: usize) -> Result<(), Refusal>
    ensures { answer result ≡ halves_refusal s cut first.now second.now numbers }
{
    check_scheme(s)?;
    let bits = frame_bits(s.settings);
    if !halves_long(bits, cut, first.len(), second.len()) {
        return Err(Refusal::InputLength);
    }
    if numbers != 2 * n_mux(s.settings.mode, s.settings.occupancy) {
        return Err(Refusal::OutputLength);
    }
    if !(spare_zero(first, cut) & spare_zero(second, bits - cut)) {
        return Err(Refusal::SpareBit);
    }
    Ok(())
}

// The halves treated one after the other: the second goes on where the first ends.
fn treat_halves(vspp: usize, cut: usize, first: &[u8], second: &[u8], bits: &mut [u8])
    requires { Treats cut first.now second.now bits.old }
    ensures { bits.new
        ≡ dispersed_parts vspp (unpacked cut first.now ++ unpacked (length bits.old - cut) second.now) }
{
    unpack_parts(first, vspp, 0, &mut bits[0..cut]);
    unpack_parts(second, vspp, cut as u16, &mut bits[cut..]);
}

// Their bits go the way of every block's.
fn code_accepted(s: Scheme, cut: usize, first: &[u8], second: &[u8], out: &mut [i16])
    requires { HalvesFit s cut first.now second.now out.old }
    ensures { out.new ≡ cells_of (msc_block s) (joined_bits s cut first.now second.now) }
{
    let k = msc_block(s);
    let mut bits = bit_buffer();
    let n = frame_bits(s.settings);
    treat_halves(k.vspp, cut, first, second, &mut bits[0..n]);
    code_bits(k, &bits[0..n], out);
}

// The cells of a multiplex frame whose bits below `cut` are in the first half and whose others are in the second, each packed from the start of a byte.
#[tactic(auto, using(refusal::proofs::Positive::number_positive), unfolding(crate::specs::Halves::halves_of))]
pub fn code_halves(
    s: Scheme,
    cut: usize,
    first: &[u8],
    second: &[u8],
    out: &mut [i16],
) -> Result<(), Refusal>
    ensures { halves_yield (answer result) out.new ≡ halves_of s cut first.now second.now out.old }
{
    check(s, cut, first, second, out.len())?;
    code_accepted(s, cut, first, second, out);
    Ok(())
}
