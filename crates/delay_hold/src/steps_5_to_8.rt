// Steps 5 to 8 of `next`: whether the delay changes, and to what.
ghost use Rattle.std.specs.Prelude.{◌≡◌, ◌-◌, ◌≤◌, true, not, ◌&&◌, nat_le, nat_lt};
ghost use Rattle.base.specs.Limits.{samples_limit};
ghost use Rattle.delay_hold.specs.Steps5To8.{floor_of, timer_off, highest_kept, timer_met, held_since, with_lower, keeps, changes, lowering, weighed, urgent_at, decide_at, decide_for, missing, decide};
ghost use Rattle.delay_hold.specs.Checks.{lag_up_to};
ghost use Rattle.delay_hold.specs.Whole.{peak_limit};

use super::steps_1_to_3::larger_lag;
use super::terms::Terms;
use super::{DelayHold, LowerTimer, Next, Seed};
use policy::inner::need;

// There was no such moment, or it is at least hold old.
pub fn held_since(moment: Option<u64>, hold: u64, time: u64) -> bool
    ensures { result ≡ held_since moment hold time }
{
    moment.is_none_or(|at| hold <= time.saturating_sub(at))
}

// The last run's delay, a floor of the need.
fn floor_of(seed: Option<Seed>) -> u32
    ensures { result ≡ floor_of seed }
{
    seed.map_or(0, |last| last.delay)
}

impl LowerTimer {
    // The highest need met is kept.
    fn met(mut self, need: u32) -> Self
        ensures { result ≡ highest_kept self need }
    {
        self.highest = self.highest.max(need);
        self
    }
}

// The timer starts, or keeps the highest need met.
fn timer_met(timer: Option<LowerTimer>, need: u32, time: u64) -> LowerTimer
    ensures { result ≡ timer_met timer need time }
{
    timer.map_or(
        LowerTimer {
            since: time,
            highest: need,
        },
        |running| running.met(need),
    )
}

// The delay goes up where the need is above it and little of the margin is left.
fn raised(current: u32, need: u32, urgent: bool) -> bool
    ensures { result ≡ nat_lt current need && urgent }
{
    current < need && urgent
}

// A block was late, or less than half the margin is left above the worst lag.
fn urgent(terms: Terms, late: bool, worst: u32) -> bool
    requires { worst ≤ peak_limit }
    ensures { result ≡ urgent_at terms.policy late worst terms.current }
{
    if late {
        return true;
    }
    let half = (need(terms.policy, worst) + terms.policy.read_offset).saturating_sub(worst) / 2;
    terms.policy.read_offset + terms.current < worst + half
}

// There is no p999, and no block was late.
fn unknown(p999: Option<u32>, late: bool) -> bool
    ensures { result ≡ missing p999 && not late }
{
    p999.is_none() && !late
}

// A lowering is due: it may happen now, and the timer and the last change are at least hold old.
fn due(since: u64, last: Option<u64>, hold: u64, time: u64, may_lower: bool) -> bool
    ensures { result ≡ may_lower && nat_le hold (time - since) && held_since last hold time }
{
    may_lower && hold <= time.saturating_sub(since) && held_since(last, hold, time)
}

impl DelayHold {
    pub(crate) fn with_lower(mut self, timer: Option<LowerTimer>) -> Self
        ensures { result ≡ with_lower self timer }
    {
        self.lower = timer;
        self
    }

    // The timer is off, and nothing changes.
    fn idle(mut self) -> Next
        ensures { result ≡ keeps (with_lower self timer_off) }
    {
        self.lower = None;
        Next {
            hold: self,
            change: None,
        }
    }

    // A raise or a lowering: the timer is off, and this is the last change.
    fn changed(self, delay: u32, time: u64) -> Next
        ensures { result ≡ changes self delay time }
    {
        let hold = DelayHold {
            last_change: Some(time),
            lower: None,
            ..self
        };
        Next {
            hold,
            change: Some(delay),
        }
    }

    // Step 8.
    fn lowered(self, terms: Terms, need: u32) -> Next
        ensures { result ≡ lowering terms.may_lower self need terms.hold terms.time }
    {
        let timer = timer_met(self.lower, need, terms.time);
        if due(
            timer.since,
            self.last_change,
            terms.hold,
            terms.time,
            terms.may_lower,
        ) {
            return self.changed(timer.highest, terms.time);
        }
        Next {
            hold: self.with_lower(Some(timer)),
            change: None,
        }
    }

    // Steps 6, 7 and 8 of a need.
    fn weighed(self, terms: Terms, need: u32, urgent: bool) -> Next
        requires { need ≤ samples_limit }
        ensures { result ≡ weighed terms.millisecond terms.may_lower self need urgent terms.current terms.hold terms.time }
    {
        if raised(terms.current, need, urgent) {
            return self.changed(need, terms.time);
        }
        if terms.current < need + terms.millisecond {
            return self.idle();
        }
        self.lowered(terms, need)
    }

    // Steps 6, 7 and 8 at a worst lag.
    fn decided_at(self, terms: Terms, late: bool, worst: u32) -> Next
        requires { (worst ≤ peak_limit) × (floor_of self.seeded ≤ samples_limit) }
        ensures { result ≡ decide_at terms.millisecond terms.may_lower terms.policy self late worst terms.current terms.hold terms.time }
    {
        let high = need(terms.policy, worst).max(floor_of(self.seeded));
        self.weighed(terms, high, urgent(terms, late, worst))
    }

    // The same, where there is a worst lag.
    fn decided_for(self, terms: Terms, late: bool, worst: Option<u32>) -> Next
        requires { (lag_up_to worst peak_limit ≡ true) × (floor_of self.seeded ≤ samples_limit) }
        ensures { result ≡ decide_for terms.millisecond terms.may_lower terms.policy self late worst terms.current terms.hold terms.time }
    {
        let Some(w) = worst else {
            return Next {
                hold: self,
                change: None,
            };
        };
        self.decided_at(terms, late, w)
    }

    // Steps 5 to 8.
    pub(crate) fn decided(
        self,
        terms: Terms,
        late: bool,
        p999: Option<u32>,
        peak: Option<u32>,
    ) -> Next
        requires { (lag_up_to p999 peak_limit ≡ true) × (lag_up_to peak peak_limit ≡ true) × (floor_of self.seeded ≤ samples_limit) }
        ensures { result ≡ decide terms.millisecond terms.may_lower terms.policy self late p999 peak terms.current terms.hold terms.time }
    {
        if unknown(p999, late) {
            return Next {
                hold: self,
                change: None,
            };
        }
        self.decided_for(terms, late, larger_lag(p999, peak))
    }
}
