// The automatic delay of one input (document 01, "DelayHold"): it covers the worst lag of the last window plus a margin.
// It goes up at once, and down only when the need has been lower for a hold time.
#![tactic(auto)]

ghost use Rattle.std.specs.Prelude.{◌≡◌, ◌^◌, ◌<◌};
ghost use Rattle.delay_hold.specs.declared.DelayHold.{DelayHold};
ghost use Rattle.delay_hold.specs.Lending.{held_lent, held_seen, SameHold};
ghost use Rattle.delay_hold.specs.Whole.{peak_most};
ghost use Rattle.refusals.specs.Numbers.{number_in};
ghost use Rattle.delay_hold.specs.Checks.{told, left_next, lag_up_to, lists_fit, new_left, new_reply, settings_number, held_number, next_number, left_hold, next_reply};

use policy::DelayPolicy;
use refusals::{Refusal, check_time};

// Functions that ask something of their caller; the crates above use them after their checks.
pub mod inner;
mod step_4;
mod steps_1_to_3;
mod steps_5_to_8;
mod terms;
mod whole;

pub use steps_5_to_8::held_since;
pub use whole::moment_timely;

// The delay of the last run: since when, and how many samples.
#[derive(Clone, Copy, Debug, PartialEq, Eq)]
pub struct Seed {
    pub since: u64,
    pub delay: u32,
}

// Since when the need has been lower, and the highest need since then.
#[derive(Clone, Copy, Debug, PartialEq, Eq)]
pub struct LowerTimer {
    pub since: u64,
    pub highest: u32,
}

#[derive(Clone, Copy, Debug, PartialEq, Eq)]
pub struct DelayHold {
    // How many peaks there are. Each is the highest lag of its second, within the limit; their times and lags are lent.
    pub peaks: usize,
    pub last_change: Option<u64>,
    // None: the timer is off.
    pub lower: Option<LowerTimer>,
    // The first decision: the startup phase runs 60 s from it.
    pub started: Option<u64>,
    // Late events (a call with a late block after one without, after the first change) seen in the startup phase
    // (2: it ended), and whether the last call had a late block.
    pub startup_late: u8,
    pub late_before: bool,
    // The delay of the last run: a floor for one hold time.
    pub seeded: Option<Seed>,
}

// What a decision leaves of the hold, and the change.
#[derive(Clone, Copy, Debug, PartialEq, Eq)]
pub struct Next {
    pub hold: DelayHold,
    pub change: Option<u32>,
}

// The lists lent for one hold, of 600 places: the times and the lags of its peaks, oldest first, unused places zero.
#[derive(Drop)]
pub struct HoldLists<'a> {
    pub times: &'a mut [u64],
    pub lags: &'a mut [u32],
}

// The same lists, to be read.
#[derive(Clone, Copy)]
pub struct HoldView<'a> {
    pub times: &'a [u64],
    pub lags: &'a [u32],
}

impl HoldLists<'_> {
    pub fn view(&self) -> HoldView<'_>
        ensures times { result.times.now ≡ self.now.times.now }
        ensures lags { result.lags.now ≡ self.now.lags.now }
    {
        HoldView {
            times: &*self.times,
            lags: &*self.lags,
        }
    }
}

// There is no lag, or it is at most the limit; the rule has this name, and what the steps ask speaks of it too.
fn lag_up_to(lag: Option<u32>, limit: u32) -> bool
    ensures { result ≡ lag_up_to lag limit }
{
    lag.is_none_or(|samples| samples <= limit)
}

// Both lists have their 600 places (check 5).
#[tactic(auto, unfolding(crate::specs::Checks::lists_fit, base::specs::Choice::both))]
fn lists_fit(lists: HoldView<'_>) -> bool
    ensures { (h : DelayHold) → result ≡ lists_fit (held_seen h lists.entry) }
{
    lists.times.len() == DelayHold::PLACES && lists.lags.len() == DelayHold::PLACES
}

// Checks 2, 17, 18, 3 and 4.
fn check_settings(policy: DelayPolicy, width: u32) -> Result<(), Refusal>
    ensures { number_in result ≡ settings_number policy width }
{
    buckets::check_ranges(policy.read_offset, policy.delay_max, width)?;
    if !policy.times_allowed() {
        return Err(Refusal::Pause);
    }
    if !policy.margins_allowed() {
        return Err(Refusal::Margin);
    }
    Ok(())
}

impl DelayHold {
    // How many peaks are kept: one a second, over at most 600 s.
    pub const PLACES: usize = 600;

    // A fresh hold over two lists of 600, of which every place is written.
    pub fn new(lists: &mut HoldLists<'_>) -> Result<Self, Refusal>
        ensures left { new_left result lists.new.times.now lists.new.lags.now ≡ new_reply lists.old.times.now lists.old.lags.now }
        ensures same { SameHold lists.old lists.new }
    {
        if !lists_fit(lists.view()) {
            return Err(Refusal::ListLength);
        }
        Ok(inner::cleared(lists))
    }

    // Checks 5, 6, 8 and 15.
    fn check_state(
        self,
        lists: HoldView<'_>,
        p999: Option<u32>,
        current: u32,
        policy: DelayPolicy,
        width: u32,
        time: u64,
    ) -> Result<(), Refusal>
        requires { peak_most policy width < 2 ^ 32 }
        ensures { number_in result ≡ held_number policy width (held_seen self lists.entry) p999 current time }
    {
        if !lists_fit(lists) {
            return Err(Refusal::ListLength);
        }
        if !inner::whole(self, policy, width, lists) {
            return Err(Refusal::NotWhole);
        }
        check_time(time)?;
        if policy.delay_max < current {
            return Err(Refusal::Current);
        }
        if !lag_up_to(p999, policy.read_offset + policy.delay_max + width) {
            return Err(Refusal::Current);
        }
        Ok(())
    }

    // All checks of `next`, in this order.
    fn check_next(
        self,
        lists: HoldView<'_>,
        p999: Option<u32>,
        current: u32,
        policy: DelayPolicy,
        width: u32,
        time: u64,
    ) -> Result<(), Refusal>
        ensures { number_in result ≡ next_number policy width (held_seen self lists.entry) p999 current time }
    {
        check_settings(policy, width)?;
        self.check_state(lists, p999, current, policy, width, time)
    }

    // `next` by value: the new delay for an input with delay `current`, or that it stays, with the hold and the lists after it.
    // `p999` is the arrival lag's 99.9th percentile (none before a second of lags), `max_lag` the highest lag of the
    // blocks since the last call, `width` the bucket width. A refusal leaves hold and lists as they were.
    pub fn decide_next(
        self,
        lists: &mut HoldLists<'_>,
        p999: Option<u32>,
        max_lag: Option<u32>,
        current: u32,
        policy: DelayPolicy,
        width: u32,
        time: u64,
    ) -> Result<Next, Refusal>
        ensures left { left_next self result lists.new.times.now lists.new.lags.now ≡ next_reply policy width (held_lent self lists.old) p999 max_lag current time }
        ensures same { SameHold lists.old lists.new }
    {
        self.check_next(lists.view(), p999, current, policy, width, time)?;
        Ok(inner::next(
            self,
            lists,
            p999,
            max_lag,
            current,
            policy,
            time,
            inner::DELAY_LOWER_SAMPLES,
            inner::ALWAYS_LOWER,
        ))
    }

    // The lent hold changes: what `decide_next` leaves is stored.
    pub fn next(
        &mut self,
        lists: &mut HoldLists<'_>,
        p999: Option<u32>,
        max_lag: Option<u32>,
        current: u32,
        policy: DelayPolicy,
        width: u32,
        time: u64,
    ) -> Result<Option<u32>, Refusal>
        ensures left { left_hold (told result) self.new lists.new.times.now lists.new.lags.now ≡ next_reply policy width (held_lent self.old lists.old) p999 max_lag current time }
        ensures same { SameHold lists.old lists.new }
    {
        let next = DelayHold::decide_next(
            *self, lists, p999, max_lag, current, policy, width, time,
        )?;
        *self = next.hold;
        Ok(next.change)
    }
}
