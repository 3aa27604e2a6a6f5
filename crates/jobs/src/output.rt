// A super frame as it goes to standard output: its bytes in one buffer.
// Stays, in this module: buffers stand one by one, since a clause would name one in a struct `cells.now.fac.now` and not `fac.now`.
ghost use Rattle.std.specs.Prelude.{◌≡◌, ◌++◌, ◌+◌, ◌*◌, ◌≤◌, length};
ghost use Rattle.jobs.specs.Output.{Joined, frames_length, cell_output, block_output};

use console::bytes::put_bytes;
use deskcells::numbers::put_cells;

// The bytes of the cells of a super frame from the start of a buffer on, and how many there are.
// Stays: `write_cells` alone calls this and requires the same; a type for slices with room would hold all four, and the clauses would name `lent.now.fac.now`.
pub fn join_cells(fac: &[i16], sdc: &[i16], msc: &[i16], out: &mut [u8]) -> usize
    requires { 2 * length fac.now + 2 * length sdc.now + 2 * length msc.now ≤ length out.old }
    ensures { Joined (length out.old) (cell_output fac.now sdc.now msc.now)
        out.old result out.new }
{
    let a = 2 * fac.len();
    let b = a + 2 * sdc.len();
    put_cells(fac, out, 0);
    put_cells(sdc, out, a);
    put_cells(msc, out, b);
    b + 2 * msc.len()
}

// The length of the first n of three frames.
#[tactic(auto, unfolding(crate::specs::Output::frames_length))]
fn frames_length(n: u8, all: usize) -> usize
    ensures value { result ≡ frames_length n all }
    ensures upper_bound { result ≤ all }
{
    match n {
        0 => 0,
        1 => all / 3,
        2 => 2 * (all / 3),
        _ => all,
    }
}

// What tells of lost blocks, FAC, SDC, the number of finished frames, and those frames, from the start of a buffer on, and how many bytes there are.
// Stays: `written::write_read`, which docs/PROMISES.md names, alone calls this and requires the same; a type would be made there for one call.
pub fn join_blocks(lost: &[u8], fac: &[u8], sdc: &[u8], n: u8, msc: &[u8], out: &mut [u8]) -> usize
    requires { length lost.now + length fac.now + length sdc.now + 1 + length msc.now ≤ length out.old }
    ensures { Joined (length out.old)
        (lost.now ++ block_output fac.now sdc.now n msc.now)
        out.old result out.new }
{
    let end = frames_length(n, msc.len());
    let a = lost.len();
    let b = a + fac.len();
    let c = b + sdc.len();
    let d = c + 1;
    let total = d + end;
    put_bytes(lost, out, 0);
    put_bytes(fac, out, a);
    put_bytes(sdc, out, b);
    put_bytes(&[n], out, c);
    put_bytes(&msc[0..end], out, d);
    total
}
