// Signed numbers: cells.
ghost use Rattle.std.specs.Prelude.{◌≡◌, length};
ghost use Rattle.lists.specs.Same.{same_numbers};

// Whether two lists of numbers of one length are equal. All are looked at, whatever came before, so that a processor compares several at once.
// Stays: `==` of slices was tried; comparing the 12,236 numbers of the largest block then takes 10 % more instructions.
pub fn same(x: &[i16], y: &[i16]) -> bool
    requires { length x.now ≡ length y.now }
    ensures { result ≡ same_numbers x.now y.now }
{
    let mut passed = true;
    for i in 0..x.len() {
        passed &= x[i] == y[i];
    }
    passed
}
