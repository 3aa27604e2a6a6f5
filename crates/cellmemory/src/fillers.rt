// The fillers that follow the three rows of a super frame. 01 "Cell interleaving"; 001 table 79.
ghost use Rattle.std.specs.Prelude.{◌≡◌, ◌≤◌, length, take};
ghost use Rattle.cellmemory.specs.Clauses.{filler_numbers};

// The fillers: none, (1, 1), or (1, 1) then (1, -1).
pub const FILLERS: [i16; 4] = [1, 1, 1, -1];

// As many of them as there is room for.
pub fn write_fillers(out: &mut [i16])
    requires { length out.old ≤ 4 }
    ensures { out.new ≡ take (length out.old) filler_numbers }
{
    let n = out.len();
    out.copy_from_slice(&FILLERS[..n]);
}
