// Packed bytes to bits, one bit a byte.
ghost use Rattle.std.specs.Prelude.{◌≡◌, length, eqb};
ghost use Rattle.lists.specs.Lists.{total};
ghost use Rattle.block.specs.Packing.{bit_at, unpacked};

// A bit of packed bytes, zero past their end, and there without a shift: most bits of a frame that its streams don't fill lie there.
#[tactic(auto, unfolding(block::specs::Packing::bit_at))]
fn bit_at(bytes: &[u8], i: usize) -> u8
    ensures { result ≡ bit_at bytes.now i }
{
    match bytes.get(i / 8) {
        Some(byte) => (byte >> (7 - i % 8)) % 2,
        None => 0,
    }
}

// As many bits of packed bytes as there is room for; past their end they are zero.
pub fn unpack(bytes: &[u8], out: &mut [u8])
    ensures { out.new ≡ unpacked (length out.old) bytes.now }
{
    for (i, bit) in out.iter_mut().enumerate() {
        *bit = bit_at(bytes, i);
    }
}

// Whether no bit is set.
pub fn all_zero(bits: &[u8]) -> bool
    ensures { result ≡ eqb (total bits.now) 0 }
{
    bits.iter().all(|bit| *bit == 0)
}
