// The first phase of a call that reads: every block is read, whatever the others are, and its bytes stand in its own place. 01 "Buffers and state" and "Operations".
// Stays, in this module: buffers stand one by one; with a struct of `&mut` a clause must also say that each reference is still the same one.
ghost use Rattle.superframe.specs.Clauses.{read_call};
ghost use Rattle.readblocks.specs.Clauses.{BlocksLent, BlocksRead};

use crate::Blocks;
use blockreader::several::read_several;
use channels::blocks::{fac_block, sdc_block};
use frames::Frames;
use frames::read::read_rows;
use superframe::State;

// Every block of a call that no number up to 12 refuses, into its place; memory goes on by three rows.
pub fn read_blocks(
    state: State,
    faccells: &[i16],
    sdccells: &[i16],
    msccells: &[i16],
    memory: &mut [u8],
    fac: &mut [u8],
    sdc: &mut [u8],
    msc: &mut [u8],
) -> Blocks
    requires { BlocksLent state memory.old (read_call faccells.now sdccells.now msccells.now fac.old sdc.old msc.old) }
    ensures { BlocksRead state memory.old
        (read_call faccells.now sdccells.now msccells.now fac.old sdc.old msc.old)
        result memory.new fac.new sdc.new msc.new }
{
    let f = read_several(fac_block(state.scheme), 3, faccells, fac);
    let d = read_several(sdc_block(state.scheme), 1, sdccells, sdc);
    let Frames {
        given: m,
        finished,
        after,
    } = read_rows(state, msccells, memory, msc);
    Blocks {
        given: [f[0], f[1], f[2], d[0], m[0], m[1], m[2]],
        finished,
        after,
    }
}
