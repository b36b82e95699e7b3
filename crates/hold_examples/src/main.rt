// Document 01's examples of `next`, a session and every refusal: a line for the call and a line for its answer, as the oracle of the
// Rust reads and writes them. crates/hold_examples/stdout holds what the Rust answers, and after it the refusals, which it has not.
#![tactic(auto)]

use delay_hold::{DelayHold, HoldLists, HoldView};
use policy::DelayPolicy;
use std::{fmt, io};

// `-` where there is none. It stands in clock_examples and in hold_examples: they share no crate that shows anything, and one for this alone is no plainer.
#[derive(Clone, Copy)]
struct OrNone<T>(Option<T>);

impl<T: fmt::Display> fmt::Display for OrNone<T> {
    fn fmt<W: fmt::Write>(&self, f: &mut fmt::Formatter<W>) -> fmt::Result {
        match &self.0 {
            Some(x) => write!(f, "{x}"),
            None => write!(f, "-"),
        }
    }
}

// A time and samples.
#[derive(Clone, Copy)]
struct Pair(u64, u32);

impl fmt::Display for Pair {
    fn fmt<W: fmt::Write>(&self, f: &mut fmt::Formatter<W>) -> fmt::Result {
        let Pair(time, samples) = self;
        write!(f, "{time}:{samples}")
    }
}

// The hold as it stands: its peaks, last change, timer, start, startup lates, late before and seed.
fn hold_after(rt: &impl Print, hold: DelayHold, lists: HoldView<'_>) -> io::Result<()> {
    print!(rt; " H {}", hold.peaks)?;
    for (time, lag) in lists.times.iter().zip(lists.lags.iter()).take(hold.peaks) {
        print!(rt; " {}", Pair(*time, *lag))?;
    }
    let lower = hold.lower.map(|timer| Pair(timer.since, timer.highest));
    let seeded = hold.seeded.map(|seed| Pair(seed.since, seed.delay));
    print!(rt; " {} {}", OrNone(hold.last_change), OrNone(lower))?;
    print!(rt; " {} {}", OrNone(hold.started), hold.startup_late)?;
    println!(rt; " {} {}", hold.late_before as u8, OrNone(seeded))
}

// A call of `next` with a share of half, its answer, and what it leaves.
fn next(
    rt: &impl Print,
    hold: DelayHold,
    lists: &mut HoldLists<'_>,
    p999: Option<u32>,
    max_lag: Option<u32>,
    current: u32,
    policy: DelayPolicy,
    width: u32,
    time: u64,
) -> io::Result<DelayHold> {
    print!(rt; "next {} {} {width}", policy.read_offset, policy.delay_max)?;
    print!(rt; " {} {} {}", policy.hold, policy.window, policy.margin)?;
    print!(rt; " 4049000000000000 {} {}", OrNone(p999), OrNone(max_lag))?;
    println!(rt; " {current} {time}")?;
    match hold.decide_next(lists, p999, max_lag, current, policy, width, time) {
        Ok(next) => {
            print!(rt; "ok {}", OrNone(next.change))?;
            hold_after(rt, next.hold, lists.view())?;
            Ok(next.hold)
        }
        Err(refusal) => {
            println!(rt; "refused {}", refusal.number())?;
            Ok(hold)
        }
    }
}

// A fresh hold.
fn fresh(rt: &impl Print, lists: &mut HoldLists<'_>) -> io::Result<DelayHold> {
    println!(rt; "hnew")?;
    match DelayHold::new(lists) {
        Ok(hold) => {
            println!(rt; "ok")?;
            Ok(hold)
        }
        Err(refusal) => {
            println!(rt; "refused {}", refusal.number())?;
            Ok(delay_hold::inner::fresh())
        }
    }
}

// Offset 480, maximum 4,800, hold 30 s, window 10 s, margin 96, share 0.5.
fn policy() -> DelayPolicy {
    DelayPolicy {
        read_offset: 480,
        delay_max: 4800,
        hold: 30_000_000_000,
        window: 10_000_000_000,
        margin: 96,
        margin_share: 0.5,
    }
}

// One after the other, calls of `next` on a fresh hold: p999, the largest lag, the delay and the time.
fn run(rt: &impl Print, calls: &[(Option<u32>, Option<u32>, u32, u64)]) -> io::Result<()> {
    let mut lists = HoldLists {
        times: &mut [0u64; 600],
        lags: &mut [0u32; 600],
    };
    let mut hold = fresh(rt, &mut lists)?;
    for (p999, max_lag, current, time) in calls {
        hold = next(
            rt,
            hold,
            &mut lists,
            *p999,
            *max_lag,
            *current,
            policy(),
            48,
            *time,
        )?;
    }
    Ok(())
}

// Each number that refuses a call of `next`.
fn refusals(rt: &impl Print) -> io::Result<()> {
    let mut lists = HoldLists {
        times: &mut [0u64; 600],
        lags: &mut [0u32; 600],
    };
    let p = policy();
    let q = Some(480);
    let hold = fresh(rt, &mut lists)?;
    let far = DelayPolicy {
        delay_max: 96001,
        ..p
    };
    let short = DelayPolicy {
        window: 999_999_999,
        ..p
    };
    let wide = DelayPolicy { margin: 96001, ..p };
    for (policy, width) in [
        (far, 48),
        (p, 0),
        (p, 4801),
        (p, 2),
        (short, 48),
        (wide, 48),
    ] {
        next(rt, hold, &mut lists, q, q, 0, policy, width, 1000)?;
    }
    let mut few = HoldLists {
        times: &mut [0u64; 599],
        lags: &mut [0u32; 600],
    };
    print!(rt; "!5 ")?;
    next(rt, hold, &mut few, q, q, 0, p, 48, 1000)?;
    let mut marked = HoldLists {
        times: &mut [0u64; 600],
        lags: &mut [1u32; 600],
    };
    next(rt, hold, &mut marked, q, q, 0, p, 48, 1000)?;
    for (p999, current, time) in [
        (480, 0, 4_000_000_000_000_000_001),
        (480, 4801, 1000),
        (5329, 0, 1000),
        (5328, 4800, 4_000_000_000_000_000_000),
    ] {
        next(rt, hold, &mut lists, Some(p999), q, current, p, 48, time)?;
    }
    Ok(())
}

fn main(rt: HostRuntime) -> io::Result<()> {
    run(&rt, &[(None, Some(485), 0, 1000)])?;
    run(&rt, &[(None, Some(480), 0, 1000)])?;
    run(&rt, &[(None, Some(5281), 0, 1000)])?;
    run(&rt, &[(Some(480), None, 47, 1000)])?;
    run(&rt, &[(Some(480), None, 48, 1000)])?;
    run(&rt, &[(Some(480), None, 143, 1000)])?;
    run(&rt, &[(Some(480), None, 144, 1000)])?;
    // 200 lowers to 96 at 5 s, not 1 ns before
    run(
        &rt,
        &[
            (Some(480), None, 200, 1000),
            (Some(480), None, 200, 5_000_000_999),
            (Some(480), None, 200, 5_000_001_000),
        ],
    )?;
    // a raise, lates that end startup, a peak that is joined and one that goes, a clock that goes back, a lowering to the highest need met
    run(
        &rt,
        &[
            (None, Some(700), 0, 1_000_000_000),
            (Some(720), Some(600), 426, 1_500_000_000),
            (Some(720), Some(1000), 456, 2_500_000_000),
            (Some(720), Some(500), 876, 3_500_000_000),
            (Some(720), Some(2000), 876, 4_500_000_000),
            (Some(720), Some(600), 2376, 15_000_000_000),
            (Some(720), Some(900), 2376, 14_000_000_000),
            (Some(720), Some(600), 2376, 44_999_999_999),
            (Some(720), Some(5300), 2376, 45_000_000_000),
        ],
    )?;
    refusals(&rt)
}
