// Cells as bytes: 16-bit two's-complement numbers, low byte first.
ghost use Rattle.std.specs.Prelude.{◌≡◌, ◌+◌, ◌*◌, ◌≤◌, length};
ghost use Rattle.std.proofs.lemmas.List.Edits.{sets};
ghost use Rattle.deskcells.specs.Cells.{cell_bytes, bytes_cells};

// The bytes of numbers from a place on.
// Stays: docs/READING.md names this function and shows its loop, and its promise holds for every place.
pub fn put_cells(cells: &[i16], out: &mut [u8], at: usize)
    requires { at + 2 * length cells.now ≤ length out.old }
    ensures { out.new ≡ sets out.old at (cell_bytes cells.now) }
{
    for i in 0..cells.len() {
        let [low, high] = cells[i].to_le_bytes();
        out[at + 2 * i] = low;
        out[at + 2 * i + 1] = high;
    }
}

// The numbers of bytes from the start of a buffer on.
pub fn take_cells(bytes: &[u8], cells: &mut [i16])
    requires { length bytes.now ≤ 2 * length cells.old }
    ensures { cells.new ≡ sets cells.old 0 (bytes_cells bytes.now) }
{
    for i in 0..bytes.len() / 2 {
        cells[i] = i16::from_le_bytes([bytes[2 * i], bytes[2 * i + 1]]);
    }
}
