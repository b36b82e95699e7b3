// Check 6 of one hold.
ghost use Rattle.std.specs.Prelude.{◌≡◌, ◌^◌, ◌<◌, ◌≤◌, length};
ghost use Rattle.base.specs.Limits.{time_limit};
ghost use Rattle.base.specs.Rows.{up_to};
ghost use Rattle.delay_hold.specs.Lending.{held_seen};
ghost use Rattle.delay_hold.specs.Whole.{moment_timely, seed_fits, seed_timely, timer_fits, timer_timely, peak_most, whole_peaks, whole_times};
ghost use Rattle.delay_hold.specs.Step4Peaks.{most_peaks};

use super::{DelayHold, HoldView, LowerTimer, Seed};
use policy::DelayPolicy;

// Tests of one value each, by the names that their rules have.
// There was no such moment, or it lies within check 8.
pub fn moment_timely(moment: Option<u64>) -> bool
    ensures { result ≡ moment_timely moment }
{
    moment.is_none_or(|at| at <= base::TIME_LIMIT)
}

fn seed_fits(seed: Option<Seed>, maximum: u32) -> bool
    ensures { result ≡ seed_fits seed maximum }
{
    seed.is_none_or(|last| last.delay <= maximum)
}

fn seed_timely(seed: Option<Seed>) -> bool
    ensures { result ≡ seed_timely seed }
{
    seed.is_none_or(|last| last.since <= base::TIME_LIMIT)
}

// The timer is off, or its highest need is at most the maximum.
fn timer_fits(timer: Option<LowerTimer>, maximum: u32) -> bool
    ensures { result ≡ timer_fits timer maximum }
{
    timer.is_none_or(|running| running.highest <= maximum)
}

fn timer_timely(timer: Option<LowerTimer>) -> bool
    ensures { result ≡ timer_timely timer }
{
    timer.is_none_or(|running| running.since <= base::TIME_LIMIT)
}

// The lags of the first n peaks are at most so many samples.
fn lags_up_to(lags: &[u32], n: usize, most: u32) -> bool
    requires { n ≤ length lags.now }
    ensures { result ≡ up_to most n lags.now }
{
    lags[..n].iter().all(|lag| *lag <= most)
}

// Their times lie within check 8.
fn times_timely(times: &[u64], n: usize) -> bool
    requires { n ≤ length times.now }
    ensures { result ≡ up_to time_limit n times.now }
{
    times[..n].iter().all(|at| *at <= base::TIME_LIMIT)
}

impl DelayHold {
    // The peaks, in lists of 600.
    #[tactic(auto, unfolding(crate::specs::Whole::whole_peaks, base::specs::Choice::both))]
    pub(crate) fn whole_peaks(self, policy: DelayPolicy, width: u32, lists: HoldView<'_>) -> bool
        requires { (peak_most policy width < 2 ^ 32) × (length lists.times.now ≡ most_peaks) × (length lists.lags.now ≡ most_peaks) }
        ensures { result ≡ whole_peaks policy width (held_seen self lists.entry) }
    {
        let n = self.peaks;
        let most = policy.read_offset + policy.delay_max + width;
        n <= DelayHold::PLACES
            && base::inner::spaced(base::NANOS, n, lists.times)
            && base::inner::span(n, lists.times) < policy.window
            && base::blank(lists.times, n)
            && base::blank(lists.lags, n)
            && lags_up_to(lists.lags, n, most)
            && times_timely(lists.times, n)
    }

    // The seed, the timer and the other times.
    #[tactic(auto, unfolding(crate::specs::Whole::whole_times, base::specs::Choice::both))]
    pub(crate) fn whole_times(self, policy: DelayPolicy) -> bool
        ensures { result ≡ whole_times policy self }
    {
        seed_fits(self.seeded, policy.delay_max)
            && timer_fits(self.lower, policy.delay_max)
            && moment_timely(self.last_change)
            && timer_timely(self.lower)
            && moment_timely(self.started)
            && seed_timely(self.seeded)
    }
}
