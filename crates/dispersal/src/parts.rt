// The very strongly protected part of a frame and the remainder, each with a sequence of its own. 01 "Dispersal"; 02, S-6.
ghost use Rattle.std.specs.Prelude.{◌≡◌, length};
ghost use Rattle.block.specs.Packing.{unpacked};
ghost use Rattle.block.specs.Dispersal.{dispersed_from};
ghost use Rattle.packing.specs.Clauses.{Unpacks};

use crate::bits::disperse;
use packing::bits::unpack;

// The bits of a frame from its bit `begins` on, of which those below `vspp` are dispersed by themselves.
pub fn unpack_parts(bytes: &[u8], vspp: usize, begins: u16, bits: &mut [u8])
    requires { Unpacks bytes.now 0 bits.old }
    ensures { bits.new ≡ dispersed_from vspp begins (unpacked (length bits.old) bytes.now) }
{
    unpack(bytes, bits);
    let front = vspp.saturating_sub(begins as usize);
    if bits.len() <= front {
        disperse(begins, bits);
        return;
    }
    let past = (begins as usize).saturating_sub(vspp);
    disperse(begins, &mut bits[0..front]);
    disperse(past as u16, &mut bits[front..]);
}
