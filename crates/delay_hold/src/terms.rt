// What the steps of one call of `next` share.
ghost use Rattle.std.specs.Prelude.{◌≤◌};
ghost use Rattle.base.specs.Limits.{samples_limit};
ghost use Rattle.policy.specs.Settings.{Sound};

use policy::DelayPolicy;

// The settings and the delay as it is; the hold, which startup may cut, and the time; the samples of a millisecond, and whether a due lowering happens now.
#[derive(Clone, Copy)]
pub(crate) struct Terms {
    pub policy: DelayPolicy,
    pub current: u32,
    pub hold: u64,
    pub time: u64,
    pub millisecond: u32,
    pub may_lower: bool,
    ghost sound: { Sound policy },
    ghost current_most: { current ≤ samples_limit },
    ghost millisecond_most: { millisecond ≤ samples_limit },
}
