// The calls that need no supervisor: each is answered by value (compare/README.md, "The protocol"). The window and the hold alone have the lists'
// last places. A refused call leaves what is kept.
#![tactic(auto)]

use delay_hold::{DelayHold, HoldLists};
use lag_window::LagWindow;
use rules_window::WindowLists;
use sources::Schedule;
use state::Coalesce;
use text_answers::inner::answer_of;
use text_answers::{Answer, Left};
use text_lending::{Places, buckets, cut, file_sizes, places_from};
use text_requests::{CoalesceCall, HoldCall, NumberCall, ScheduleCall, WindowCall};

mod clocks;
mod holds;
mod numbers;
mod windows;

// What the calls alone keep.
#[derive(Clone, Copy)]
pub struct Alone {
    pub window: LagWindow,
    pub hold: DelayHold,
    pub coalesce: Coalesce,
    pub schedule: Schedule,
}

// Before any call: a window of width 4 for offset and maximum 0, and a fresh hold.
pub fn begin() -> Alone {
    let window = LagWindow {
        seconds: 0,
        buckets: 1_202,
        width: 4,
    };
    let hold = delay_hold::inner::fresh();
    let coalesce = Coalesce::new();
    let schedule = Schedule::new();
    Alone {
        window,
        hold,
        coalesce,
        schedule,
    }
}

// The buckets of the window that a call is on: a new one has its own.
fn buckets_for(call: WindowCall, window: LagWindow) -> usize {
    let WindowCall::WindowNew(asked) = call else {
        return window.buckets;
    };
    buckets(asked.offset, asked.most, asked.width)
}

// Milliseconds, samples, needs, and the block clock.
pub fn number(call: NumberCall) -> Answer {
    numbers::answer(call)
}

// A call on the window, on parts of lists. They come singly: a part that goes straight into a struct is not followed.
fn on_own_seconds(
    call: WindowCall,
    kept: LagWindow,
    starts: &mut [u64],
    totals: &mut [u64],
    counts: &mut [u32],
    sums: &mut [u64],
) -> Left<LagWindow> {
    let mut own = WindowLists {
        starts,
        totals,
        counts,
        sums,
    };
    windows::answer(call, kept, &mut own)
}

// A call on the window, on its places of the lists.
pub fn on_window(
    call: WindowCall,
    alone: Alone,
    short: bool,
    lists: &mut WindowLists<'_>,
) -> Left<Alone> {
    let kept = alone.window;
    let buckets = buckets_for(call, kept);
    let seconds = cut(LagWindow::SECONDS, short);
    let cells = cut(LagWindow::SECONDS.saturating_mul(buckets), short);
    let seen = lists.view();
    let a = places_from(Places::LONE.seconds, seconds, seen.starts.len());
    let b = places_from(Places::LONE.seconds, seconds, seen.totals.len());
    let c = places_from(Places::LONE.counts, cells, seen.counts.len());
    let d = places_from(Places::LONE.sums, cut(buckets, short), seen.sums.len());
    on_own_seconds(
        call,
        kept,
        &mut lists.starts[a.from..a.to],
        &mut lists.totals[b.from..b.to],
        &mut lists.counts[c.from..c.to],
        &mut lists.sums[d.from..d.to],
    )
    .map(|window| Alone { window, ..alone })
}

// A call on the hold, on parts of lists, which come singly as to `on_own_seconds`.
fn on_own_peaks(
    call: HoldCall,
    kept: DelayHold,
    times: &mut [u64],
    lags: &mut [u32],
) -> Left<DelayHold> {
    let mut own = HoldLists { times, lags };
    holds::answer(call, kept, &mut own)
}

// A call on the hold, on its places of the lists.
pub fn on_hold(
    call: HoldCall,
    alone: Alone,
    short: bool,
    lists: &mut HoldLists<'_>,
) -> Left<Alone> {
    let kept = alone.hold;
    let n = cut(DelayHold::PLACES, short);
    let seen = lists.view();
    let a = places_from(Places::LONE.peaks, n, seen.times.len());
    let b = places_from(Places::LONE.peaks, n, seen.lags.len());
    on_own_peaks(
        call,
        kept,
        &mut lists.times[a.from..a.to],
        &mut lists.lags[b.from..b.to],
    )
    .map(|hold| Alone { hold, ..alone })
}

pub fn on_coalesce(call: CoalesceCall, alone: Alone) -> Left<Alone> {
    clocks::coalesce(call, alone.coalesce).map(|coalesce| Alone { coalesce, ..alone })
}

pub fn on_schedule(call: ScheduleCall, alone: Alone) -> Left<Alone> {
    clocks::schedule(call, alone.schedule).map(|schedule| Alone { schedule, ..alone })
}

// A delay file that is read, on lists of the lengths that the reader asks for.
pub fn read_delays(file: &[u8], short: bool, flows: &mut [u8], delays: &mut [u32]) -> Answer {
    let sizes = file_sizes(short);
    let bytes = sizes.flows.min(flows.len());
    let numbers = sizes.delays.min(delays.len());
    answer_of(
        delay_files::read_delays(file, &mut flows[..bytes], &mut delays[..numbers]),
        |count| Answer::Delays(count),
    )
}
