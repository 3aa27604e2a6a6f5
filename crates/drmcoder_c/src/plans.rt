// The week plan: drm_plan (02, S-12).
ghost use Rattle.std.specs.Prelude.{◌≡◌};
ghost use Rattle.settingbytes.specs.Numbers.{yielded};
ghost use Rattle.drmcoder.specs.Plans.{plan_bytes};

// The rule's place in the list and the mark of a super frame of the week.
#[unsafe(no_mangle)]
pub extern "C" fn drm_plan(rules: &[u8], superframe: u32, bytes: &mut [u8]) -> u8
    ensures { yielded result bytes.new ≡ plan_bytes rules.now superframe bytes.old }
{
    drmcoder::plans::drm_plan(rules, superframe, bytes)
}
