// Packed bytes to bits, one bit a byte, and back. 01 "Buffers and state".
ghost use Rattle.std.specs.Prelude.{◌≡◌, ◌+◌, ◌^◌, ◌≤◌, ◌<◌, length};
ghost use Rattle.component.specs.Bits.{Bits};
ghost use Rattle.lists.specs.Lists.{table};
ghost use Rattle.block.specs.Packing.{bit_at, unpacked, digits, packed, spare_zero};
ghost use Rattle.packing.specs.Clauses.{half_bit, half_put, UnpacksWhole, Unpacks, Packs};

// The four bits of each of the sixteen half bytes, highest first.
fn half_bits() -> [u8; 64]
    ensures { result ≡ table half_bit 0 64 }
{
    let mut bits = [0u8; 64];
    for k in 0..64usize {
        bits[k] = (((k / 4) >> (3 - k % 4)) % 2) as u8;
    }
    bits
}

// The bits of a half byte, from place `at` on. All four are read before one is stored, so that a processor moves them at once.
// Stays: out is lent, and a slice of four in place of it would say the place twice, as its start and its end.
fn put_half(bits: &[u8; 64], half: usize, out: &mut [u8], at: usize)
    requires { (half < 16) × (at + 4 ≤ length out.old) }
    ensures { out.new ≡ half_put bits.now half out.old at }
{
    let a = bits[4 * half];
    let b = bits[4 * half + 1];
    let c = bits[4 * half + 2];
    let d = bits[4 * half + 3];
    out[at] = a;
    out[at + 1] = b;
    out[at + 2] = c;
    out[at + 3] = d;
}

// The bits of whole bytes, eight a turn: by a table of half bytes, which is small enough to be made for a block of a few bytes.
fn unpack_whole(bytes: &[u8], out: &mut [u8])
    requires { UnpacksWhole bytes.now out.old }
    ensures { out.new ≡ unpacked (length out.old) bytes.now }
{
    let bits = half_bits();
    for k in 0..out.len() / 8 {
        let byte = bytes[k] as usize;
        put_half(&bits, byte / 16, out, 8 * k);
        put_half(&bits, byte % 16, out, 8 * k + 4);
    }
}

// The bits from place `from` on, one a turn.
fn unpack_rest(bytes: &[u8], from: usize, out: &mut [u8])
    requires { Unpacks bytes.now from out.old }
    ensures { out.new ≡ table (bit_at bytes.now) from (length out.old) }
{
    for i in 0..out.len() {
        let at = from + i;
        out[i] = (bytes[at / 8] >> (7 - at % 8)) % 2;
    }
}

// The first bits of packed bytes, as many as out is long.
pub fn unpack(bytes: &[u8], out: &mut [u8])
    requires { Unpacks bytes.now 0 out.old }
    ensures { out.new ≡ unpacked (length out.old) bytes.now }
{
    let whole = out.len() / 8 * 8;
    unpack_whole(bytes, &mut out[0..whole]);
    unpack_rest(bytes, whole, &mut out[whole..]);
}

// Whether no bit after the first n is set.
pub fn spare_zero(bytes: &[u8], n: usize) -> bool
    requires { length bytes.now ≤ 65536 }
    ensures { result ≡ spare_zero n bytes.now }
{
    for i in n..8 * bytes.len() {
        if (bytes[i / 8] >> (7 - i % 8)) % 2 != 0 {
            return false;
        }
    }
    true
}

// The byte whose bits, highest first, are those from place `at` on; past the end they are zero.
// Stays: bits are bytes that `pack` is lent, whose type must stay; a slice of another type would be a copy.
fn last_byte(bits: &[u8], at: usize) -> u8
    requires { Bits bits.now × (at < 2 ^ 32) }
    ensures { result ≡ digits bits.now at 8 }
{
    let mut byte: u32 = 0;
    for j in 0..8 {
        let bit = bits.get(at + j).copied().unwrap_or(0);
        byte = byte * 2 + u32::from(bit);
    }
    byte as u8
}

// The same of bits that are all there.
// Stays: bits are bytes that `pack` is lent, whose type must stay; a slice of another type would be a copy.
#[tactic(auto, using(crate::proofs::Bytes::eight_digits))]
fn whole_byte(bits: &[u8], at: usize) -> u8
    requires { Bits bits.now × (at + 8 ≤ length bits.now) }
    ensures { result ≡ digits bits.now at 8 }
{
    let high = 8 * bits[at] + 4 * bits[at + 1] + 2 * bits[at + 2] + bits[at + 3];
    let low = 8 * bits[at + 4] + 4 * bits[at + 5] + 2 * bits[at + 6] + bits[at + 7];
    16 * high + low
}

// The byte whose bits are those from place `at` on.
// Stays: bits are bytes that `pack` is lent, whose type must stay; a slice of another type would be a copy.
fn byte_from(bits: &[u8], at: usize) -> u8
    requires { Bits bits.now × (at < 2 ^ 32) }
    ensures { result ≡ digits bits.now at 8 }
{
    if at + 8 <= bits.len() {
        return whole_byte(bits, at);
    }
    last_byte(bits, at)
}

// Bits packed into bytes; spare bits of the last byte are zero.
pub fn pack(bits: &[u8], out: &mut [u8])
    requires { Packs bits.now out.old }
    ensures { out.new ≡ packed bits.now }
{
    for k in 0..out.len() {
        out[k] = byte_from(bits, 8 * k);
    }
}
