// Steps 1 to 3 of `next`: startup, the seed, and what the largest lag tells.
ghost use Rattle.std.specs.Prelude.{◌≡◌};
ghost use Rattle.delay_hold.specs.Steps1To3.{started_at, startup_at, capped, seed_left, lag_within, late_at, lates_next, lates_seeded, noted};
ghost use Rattle.delay_hold.specs.Step4Peaks.{larger_lag};

use super::terms::Terms;
use super::{DelayHold, Seed};
use policy::inner::need;

// How long the startup phase lasts, and the longest hold and window in it.
const STARTUP: u64 = 60 * base::NANOS;

const STARTUP_HOLD: u64 = 5 * base::NANOS;

// So many late events end it.
const STARTUP_LATES: u8 = 2;

// When the first decision was, which may be this one.
pub(crate) fn started_at(begun: Option<u64>, time: u64) -> u64
    ensures { result ≡ started_at begun time }
{
    begun.unwrap_or(time)
}

pub(crate) fn in_startup(started: u64, lates: u8, time: u64) -> bool
    ensures { result ≡ startup_at started lates time }
{
    time.saturating_sub(started) < STARTUP && lates < STARTUP_LATES
}

pub(crate) fn cap(startup: bool, x: u64) -> u64
    ensures { result ≡ capped startup x }
{
    if startup { x.min(STARTUP_HOLD) } else { x }
}

// What is left of the seed: it goes at the age of a hold.
fn seed_left(seed: Option<Seed>, hold: u64, time: u64) -> Option<Seed>
    ensures { result ≡ seed_left seed hold time }
{
    seed.filter(|last| time.saturating_sub(last.since) < hold)
}

// A lag above the limit is a writer catching up, and counts for nothing.
pub(crate) fn lag_within(lag: Option<u32>, limit: u32) -> Option<u32>
    ensures { result ≡ lag_within lag limit }
{
    lag.filter(|samples| *samples <= limit)
}

pub(crate) fn late_at(lag: Option<u32>, limit: u32) -> bool
    ensures { result ≡ late_at lag limit }
{
    lag.is_some_and(|samples| limit < samples)
}

pub(crate) fn larger_lag(lag: Option<u32>, other: Option<u32>) -> Option<u32>
    ensures { result ≡ larger_lag lag other }
{
    lag.max(other)
}

// A late block after the first change is a startup event.
fn lates_next(late: bool, before: bool, startup: bool, last: Option<u64>, n: u8) -> u8
    ensures { result ≡ lates_next late before startup last n }
{
    if late && !before && startup && last.is_some() {
        return n.saturating_add(1);
    }
    n
}

// So is a lag that needs about the last run's delay: it was no stale value.
fn lates_seeded(terms: Terms, lag: Option<u32>, seed: Option<Seed>, n: u8) -> u8
    ensures { result ≡ lates_seeded terms.millisecond terms.policy lag seed n }
{
    let Some(l) = lag else {
        return n;
    };
    let Some(last) = seed else {
        return n;
    };
    if last.delay <= need(terms.policy, l) + terms.millisecond {
        return STARTUP_LATES;
    }
    n
}

impl DelayHold {
    pub(crate) fn noted(self, terms: Terms, lag: Option<u32>, startup: bool, late: bool) -> Self
        ensures { result ≡ noted terms.millisecond terms.policy self lag startup late terms.time }
    {
        let seeded = seed_left(self.seeded, terms.policy.hold, terms.time);
        let n = lates_next(
            late,
            self.late_before,
            startup,
            self.last_change,
            self.startup_late,
        );
        DelayHold {
            started: Some(started_at(self.started, terms.time)),
            seeded,
            startup_late: lates_seeded(terms, lag, seeded, n),
            late_before: late,
            ..self
        }
    }
}
