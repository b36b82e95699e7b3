// The settings of the automatic delay, in samples and nanoseconds, and the delay that covers a lag (document 01, "Need").
#![tactic(auto)]

ghost use Rattle.std.specs.Prelude.{◌≡◌};
ghost use Rattle.policy.specs.Need.{need_reply, told};
ghost use Rattle.policy.specs.Settings.{in_range, times_allowed, margins_allowed, share_reply, told_share};

use refusals::Refusal;

// Functions that ask something of their caller; the crates above use them after their checks.
pub mod inner;

// What decides an automatic delay.
#[derive(Clone, Copy)]
pub struct DelayPolicy {
    pub read_offset: u32,
    pub delay_max: u32,
    // The delay goes down only after the need stayed lower this long, and changes at most once in this time going down.
    pub hold: u64,
    // How long the worst lag counts.
    pub window: u64,
    // Added to what the worst lag needs ...
    pub margin: u32,
    // ... and this share of the worst lag above the read offset: percent / 100.
    pub margin_share: f64,
}

impl DelayPolicy {
    // Hold is at most 600 s, and window 1 to 600 s (check 3).
    #[tactic(auto, unfolding(crate::specs::Settings::times_allowed, base::specs::Choice::both))]
    pub fn times_allowed(self) -> bool
        ensures { result ≡ times_allowed self }
    {
        self.hold <= base::SPAN_LIMIT
            && base::NANOS <= self.window
            && self.window <= base::SPAN_LIMIT
    }

    // Margin is at most 96,000, and the share from 0 to 10 and no NaN (check 4).
    pub fn margins_allowed(self) -> bool
        ensures { result ≡ margins_allowed self }
    {
        self.margin <= base::SAMPLES_LIMIT && in_range(self.margin_share, 10.0)
    }

    // The delay that covers a lag, with the margin, within the maximum.
    pub fn need_of(self, lag: u32) -> Result<u32, Refusal>
        ensures { told result ≡ need_reply self lag }
    {
        if !buckets::reaches_allowed(self.read_offset, self.delay_max) {
            return Err(Refusal::Reach);
        }
        if !self.margins_allowed() {
            return Err(Refusal::Margin);
        }
        Ok(inner::need(self, lag))
    }
}

// From 0 to a limit, and no NaN.
fn in_range(x: f64, limit: f64) -> bool
    ensures { result ≡ in_range x limit }
{
    0.0 <= x && x <= limit
}

// A percent from 0 to 1,000 as a share (check 4).
pub fn share_of(percent: f64) -> Result<f64, Refusal>
    ensures { told_share result ≡ share_reply percent }
{
    if in_range(percent, 1000.0) {
        return Ok(percent / 100.0);
    }
    Err(Refusal::Margin)
}
