// The need for settings that were checked before.
ghost use Rattle.std.specs.Prelude.{◌≡◌};
ghost use Rattle.policy.specs.Need.{need_of};
ghost use Rattle.policy.specs.Settings.{Sound};

// Sums are 64 bits wide, so that every lag has its need.
pub fn need(policy: crate::DelayPolicy, lag: u32) -> u32
    requires { Sound policy }
    ensures { result ≡ need_of policy lag }
{
    let above = lag.saturating_sub(policy.read_offset);
    let share = doubles::inner::round_half_away(above as f64 * policy.margin_share);
    let sum = above as u64 + policy.margin as u64 + share;
    sum.min(policy.delay_max as u64) as u32
}
