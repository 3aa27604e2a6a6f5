// The dispersal step on packed bits: drm_disperse (02, S-6).
// Stays, in this module: the parameters are those of the C functions, in their order.
ghost use Rattle.std.specs.Prelude.{◌≡◌};
ghost use Rattle.dispersecall.specs.Calls.{disperse_yield, disperse_of};

// Packed bits, of which bit i is added modulo 2 to p(treated + i).
#[unsafe(no_mangle)]
pub extern "C" fn drm_disperse(treated: u16, bits: u16, bytes: &[u8], out: &mut [u8]) -> u8
    ensures { disperse_yield result out.new ≡ disperse_of treated bits bytes.now out.old }
{
    drmcoder::disperse::drm_disperse(treated, bits, bytes, out)
}
