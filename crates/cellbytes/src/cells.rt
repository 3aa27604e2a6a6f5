// Cells as bytes: each axis a 4-bit two's-complement number, the real one in the byte's high half. 02, S-7.
ghost use Rattle.std.specs.Prelude.{◌≡◌, ◌*◌, ◌<◌, length};
ghost use Rattle.cellbytes.specs.CellBytes.{signed, four_bits, cell_byte, real_of, imaginary_of, numbers, bytes};

// Stays: a type for four bits would be made of a byte by the two callers below, and taken apart here.
// Four bits as a number: with the highest turned over they are 8 more. No branch, which would follow the cells.
fn signed_bits(n: u8) -> i16
    requires { n < 16 }
    ensures { result ≡ signed n }
{
    (n ^ 8) as i16 - 8
}

// A number's four lowest bits.
fn low_bits(v: i16) -> u8
    ensures { result ≡ four_bits v }
{
    (v & 15) as u8
}

// The real number of a cell.
#[tactic(auto, unfolding(crate::specs::CellBytes::real_of))]
pub fn real(b: u8) -> i16
    ensures { result ≡ real_of b }
{
    signed_bits(b / 16)
}

// The imaginary number of a cell.
#[tactic(auto, unfolding(crate::specs::CellBytes::imaginary_of))]
pub fn imaginary(b: u8) -> i16
    ensures { result ≡ imaginary_of b }
{
    signed_bits(b % 16)
}

// The byte of a cell.
pub fn cell_byte(re: i16, im: i16) -> u8
    ensures { result ≡ cell_byte re im }
{
    16 * low_bits(re) + low_bits(im)
}

// Cells to bytes.
pub fn to_bytes(cells: &[i16], out: &mut [u8])
    requires { length cells.now ≡ 2 * length out.old }
    ensures { out.new ≡ bytes cells.now }
{
    for i in 0..out.len() {
        out[i] = cell_byte(cells[2 * i], cells[2 * i + 1]);
    }
}

// Bytes to cells.
pub fn to_numbers(cells: &[u8], out: &mut [i16])
    requires { length out.old ≡ 2 * length cells.now }
    ensures { out.new ≡ numbers cells.now }
{
    for i in 0..cells.len() {
        out[2 * i] = real(cells[i]);
        out[2 * i + 1] = imaginary(cells[i]);
    }
}
