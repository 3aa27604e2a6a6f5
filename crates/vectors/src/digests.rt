// A digest starts at 0 and takes numbers one after another.
ghost use Rattle.std.specs.Prelude.{◌≡◌};
ghost use Rattle.vectors.specs.Digest.{taken, shifted, cells_taken};

// A digest is below this prime.
const MODULUS: u64 = 4294967291;

// The digest with a number taken. The remainders come first, so that the sum fits.
#[tactic(auto, using(crate::proofs::Taken::taken_is))]
pub fn taken(d: u64, v: u64) -> u64
    ensures { result ≡ taken d v }
{
    (d % MODULUS * 31 + v % MODULUS) % MODULUS
}

// What a cell's number -7 to 7 enters as: v + 8.
fn shifted(v: i16) -> u64
    ensures { result ≡ shifted v }
{
    ((v & 15) as u64 + 8) % 16
}

// The digest with all numbers of some cells taken.
pub fn of_cells(mut d: u64, cells: &[i16]) -> u64
    ensures { result ≡ cells_taken d cells.now }
{
    for v in cells {
        d = taken(d, shifted(*v));
    }
    d
}
