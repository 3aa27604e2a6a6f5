// The dispersal step on packed bits: drm_disperse (02, S-6).
// Stays, in this module: the parameters are those of the C functions, in their order.
ghost use Rattle.std.specs.Prelude.{◌≡◌};
ghost use Rattle.dispersecall.specs.Calls.{disperse_yield, disperse_of};

use dispersecall::disperse_bytes;
use refusal::answer;

// Packed bits, of which bit i is added modulo 2 to p(treated + i).
pub fn drm_disperse(treated: u16, bits: u16, bytes: &[u8], out: &mut [u8]) -> u8
    ensures { disperse_yield result out.new ≡ disperse_of treated bits bytes.now out.old }
{
    answer(disperse_bytes(treated, bits, bytes, out))
}
