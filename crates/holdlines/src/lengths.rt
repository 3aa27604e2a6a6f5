// The bytes of a line and of a file. 02, S-7.
ghost use Rattle.std.specs.Prelude.{◌≡◌, ◌+◌, ◌*◌, ◌≤◌};
ghost use Rattle.holdlines.specs.Files.{number_digits, file_length};

use crate::Form;
use partlengths::tables;
use settings::Settings;

// The byte that ends a line.
pub const LINE_FEED: u8 = b'\n';

// The bytes of a line of n cells.
pub fn line_bytes(form: Form, n: usize) -> usize
    requires { n ≤ 6118 }
    ensures { result ≡ 2 * n * number_digits form + 1 }
{
    // Stays: the form comes from the command line, or with the name of a C call, as a value, and this is its table.
    match form {
        Form::Old => 8 * n + 1,
        Form::New => 2 * n + 1,
    }
}

// The bytes of a file.
pub fn file_bytes(form: Form, s: Settings) -> usize
    ensures { result ≡ file_length form s }
{
    let long = line_bytes(form, tables::n_mux(s.mode, s.occupancy));
    if s.interleaving == 0 {
        return 3 + 5 * long;
    }
    3 + long
}
