// Whether a candidate, coded again, gives the cells that it was read from. 01 "Operations".
ghost use Rattle.std.specs.Prelude.{◌≡◌, cond, length, replicate};
ghost use Rattle.lists.specs.Same.{same_numbers};

use lists::numbers::same;

// The candidate's bytes stay if it gives the cells, and are cleared if not.
pub fn keep_same(given: &[i16], cells: &[i16], bytes: &mut [u8]) -> bool
    requires { length given.now ≡ length cells.now }
    ensures value { result ≡ same_numbers given.now cells.now }
    ensures bytes_after { bytes.new ≡ cond (same_numbers given.now cells.now)
        bytes.old (replicate (length bytes.old) 0) }
{
    if same(given, cells) {
        return true;
    }
    bytes.fill(0);
    false
}
