// The hold by value, for the crates above, which have checked what is asked here.
ghost use Rattle.std.specs.Prelude.{◌≡◌, ◌^◌, ◌<◌, ◌≤◌, length, take};
ghost use Rattle.base.specs.Limits.{samples_limit};
ghost use Rattle.delay_hold.specs.Step4Peaks.{worst_of, most_peaks};
ghost use Rattle.delay_hold.specs.Steps5To8.{timer_off, with_lower};
ghost use Rattle.delay_hold.specs.Next.{decided, next_of, fresh_hold, cleared_hold, seeded_hold, with_peaks};
ghost use Rattle.delay_hold.specs.Lending.{held_lent, held_seen, SameHold};
ghost use Rattle.delay_hold.specs.Whole.{peak_most, whole_hold};
ghost use Rattle.delay_hold.specs.Checks.{Asked};

use super::step_4::peaks_next;
use super::steps_1_to_3::{cap, in_startup, lag_within, larger_lag, late_at, started_at};
use super::terms::Terms;
use super::{DelayHold, HoldLists, HoldView, Next, Seed};
use policy::DelayPolicy;

// One millisecond of samples: the delay goes down only where the need is at least so much lower.
// A parameter, as the rules have it: a rate will give another.
pub const DELAY_LOWER_SAMPLES: u32 = 48;

// A lowering that is due happens at once. A parameter, as the rules have it: a recording window will let one wait.
pub const ALWAYS_LOWER: bool = true;

// A fresh hold.
pub fn fresh() -> DelayHold
    ensures { result ≡ fresh_hold }
{
    DelayHold {
        peaks: 0,
        last_change: None,
        lower: None,
        started: None,
        startup_late: 0,
        late_before: false,
        seeded: None,
    }
}

// A fresh hold, and every lent place is written zero.
pub fn cleared(lists: &mut HoldLists<'_>) -> DelayHold
    ensures cleared { held_lent result lists.new ≡ cleared_hold (held_lent fresh_hold lists.old) }
    ensures same { SameHold lists.old lists.new }
{
    lists.times.fill(0);
    lists.lags.fill(0);
    fresh()
}

// Start from the delay of the last run.
pub fn seed(hold: DelayHold, delay: u32, time: u64) -> DelayHold
    ensures { result ≡ seeded_hold hold delay time }
{
    DelayHold {
        seeded: Some(Seed { since: time, delay }),
        ..hold
    }
}

// A stall interrupts a period of lower need: it starts again afterwards.
pub fn interrupt(hold: DelayHold) -> DelayHold
    ensures { result ≡ with_lower hold timer_off }
{
    hold.with_lower(None)
}

// The greatest of the lags, if any.
pub fn worst(lags: &[u32]) -> Option<u32>
    ensures { result ≡ worst_of lags.now }
{
    lags.iter().copied().max()
}

// Check 6 of one hold, in lists of 600.
#[tactic(auto, unfolding(crate::specs::Whole::whole_hold, base::specs::Choice::both))]
pub fn whole(hold: DelayHold, policy: DelayPolicy, width: u32, lists: HoldView<'_>) -> bool
    requires { (peak_most policy width < 2 ^ 32) × (length lists.times.now ≡ most_peaks) × (length lists.lags.now ≡ most_peaks) }
    ensures { result ≡ whole_hold policy width (held_seen hold lists.entry) }
{
    hold.whole_peaks(policy, width, lists) && hold.whole_times(policy)
}

impl DelayHold {
    fn with_peaks(mut self, n: usize) -> Self
        ensures { result ≡ with_peaks self n }
    {
        self.peaks = n;
        self
    }
}

// Steps 1 to 8, with so many samples in a millisecond; a lowering that is due waits where it may not happen now.
pub fn next(
    hold: DelayHold,
    lists: &mut HoldLists<'_>,
    p999: Option<u32>,
    max_lag: Option<u32>,
    current: u32,
    policy: DelayPolicy,
    time: u64,
    millisecond: u32,
    may_lower: bool,
) -> Next
    requires asked { Asked policy (held_lent hold lists.old) p999 current }
    requires millisecond_le_samples_limit { millisecond ≤ samples_limit }
    ensures decided { decided result lists.new.times.now lists.new.lags.now ≡ next_of millisecond may_lower policy (held_lent hold lists.old) p999 max_lag current time }
    ensures same { SameHold lists.old lists.new }
{
    let startup = in_startup(started_at(hold.started, time), hold.startup_late, time);
    let terms = Terms {
        policy,
        current,
        hold: cap(startup, policy.hold),
        time,
        millisecond,
        may_lower,
    };
    let window = cap(startup, policy.window);
    let lag = lag_within(max_lag, policy.read_offset + policy.delay_max);
    let late = late_at(lag, policy.read_offset + current);
    let n = peaks_next(lists, hold.peaks, larger_lag(lag, p999), window, time);
    let peak = worst(&lists.view().lags[..n]);
    let before = hold.noted(terms, lag, startup, late).with_peaks(n);
    before.decided(terms, late, p999, peak)
}
