// What a line crafts: the rows of a window, one of its sums, the peaks of a hold, a part of an input's record. It is no call and is never refused.
// Its words were read before (crate text_read): here they are stored. Of more rows or peaks than there are places only their number is kept.
#![tactic(auto)]

use delay_hold::{DelayHold, HoldLists};
use lag_window::LagWindow;
use rules_record::{AllLists, Inputs, Slot};
use rules_window::WindowLists;
use text_lending::Places;
use text_requests::lists::{Cell, Listed, Peak, Row};
use text_requests::{Part, PutAsked, SumAsked};
use text_scan::{ends, is_at};
use text_words::Reader;

// ---- stores at any place: what does not exist is left out
fn put_at<T: Copy>(s: &mut [T], i: usize, value: T) {
    if let Some(place) = s.get_mut(i) {
        *place = value;
    }
}

// n times the value from `first` on.
fn fill<T: Copy>(s: &mut [T], first: usize, n: usize, value: T) {
    let from = first.min(s.len());
    for place in s[from..].iter_mut().take(n) {
        *place = value;
    }
}

// ---- a window
// The cells of the row that begins at `first` of the counts.
fn store_cells(r: &mut Reader<'_>, counts: &mut [u32], first: usize) {
    for _i in 0..r.s.len() {
        if !is_at(r.s, r.at, b',') {
            return;
        }
        let Some(cell) = Cell::read(r) else {
            return;
        };
        put_at(counts, first.saturating_add(cell.bucket), cell.count);
    }
}

// The rows from place `at` of the line on. No heap: each is stored as it is read, where `collect` would gather them first.
fn store_rows(s: &[u8], at: usize, buckets: usize, places: Places, lists: &mut WindowLists<'_>) {
    let cells = LagWindow::SECONDS.saturating_mul(buckets);
    fill(lists.starts, places.seconds, LagWindow::SECONDS, 0);
    fill(lists.totals, places.seconds, LagWindow::SECONDS, 0);
    fill(lists.counts, places.counts, cells, 0);
    let mut r = Reader { s, at };
    let mut first = places.counts;
    for i in 0..LagWindow::SECONDS {
        if ends(r.s, r.at) {
            return;
        }
        let Some(row) = Row::read(&mut r) else {
            return;
        };
        let second = places.seconds.saturating_add(i);
        put_at(lists.starts, second, row.start);
        put_at(lists.totals, second, row.total);
        store_cells(&mut r, lists.counts, first);
        first = first.saturating_add(buckets);
    }
}

// The lags of one bucket in all seconds: its count in the first is at `first`, the next one so many buckets on, so it is no slice.
fn column(counts: &[u32], first: usize, buckets: usize) -> u64 {
    let mut sum: u64 = 0;
    let mut at = first;
    for _i in 0..LagWindow::SECONDS {
        sum += u64::from(counts.get(at).copied().unwrap_or(0));
        at = at.saturating_add(buckets);
    }
    sum
}

// The sums of the rows that are stored.
fn sum_rows(buckets: usize, places: Places, lists: &mut WindowLists<'_>) {
    for b in 0..buckets {
        let sum = column(lists.counts, places.counts.saturating_add(b), buckets);
        put_at(lists.sums, places.sums.saturating_add(b), sum);
    }
}

// The rows from place `at` of the line on, with their sums.
pub fn rows(s: &[u8], at: usize, buckets: usize, places: Places, lists: &mut WindowLists<'_>) {
    store_rows(s, at, buckets, places, lists);
    sum_rows(buckets, places, lists);
}

// One sum, right or not.
pub fn sum(asked: SumAsked, places: Places, sums: &mut [u64]) {
    put_at(sums, places.sums.saturating_add(asked.bucket), asked.sum);
}

// ---- a hold
// n peaks from place `at` of the line on.
pub fn peaks(s: &[u8], at: usize, n: usize, places: Places, lists: &mut HoldLists<'_>) {
    fill(lists.times, places.peaks, DelayHold::PLACES, 0);
    fill(lists.lags, places.peaks, DelayHold::PLACES, 0);
    let mut r = Reader { s, at };
    for i in 0..n.min(DelayHold::PLACES) {
        let Some(peak) = Peak::read(&mut r) else {
            return;
        };
        put_at(lists.times, places.peaks.saturating_add(i), peak.time);
        put_at(lists.lags, places.peaks.saturating_add(i), peak.lag);
    }
}

// ---- a part of an input's record
// An input's slot with a part crafted.
fn crafted(slot: Slot, part: Part) -> Slot {
    match part {
        Part::Window(w) => inputs_slots::with_lag_seconds(slot, w.seconds),
        Part::Hold(h) => {
            let hold = h.hold;
            inputs_slots::with_hold(slot, hold)
        }
        Part::Counters(c) => Slot {
            reopens: c.reopens,
            delay_changes: c.delay_changes,
            late_events: c.late_events,
            ..slot
        },
        Part::Delays(d) => Slot {
            delay: d.delay,
            proposed: d.proposed,
            ..slot
        },
        Part::Sum(_) => slot,
    }
}

// The part's rows, its peaks or its sum, in the places of input i, whose window has so many buckets a second.
fn store(part: Part, i: usize, buckets: usize, s: &[u8], lists: &mut AllLists<'_>) {
    let places = Places::of(i, buckets);
    match part {
        Part::Window(w) => {
            let mut windows = WindowLists {
                starts: &mut *lists.starts,
                totals: &mut *lists.totals,
                counts: &mut *lists.counts,
                sums: &mut *lists.sums,
            };
            rows(s, w.at, buckets, places, &mut windows);
        }
        Part::Sum(asked) => sum(asked, places, lists.sums),
        Part::Hold(h) => {
            let hold = h.hold;
            let mut holds = HoldLists {
                times: &mut *lists.times,
                lags: &mut *lists.peaks,
            };
            peaks(s, h.at, hold.peaks, places, &mut holds);
        }
        Part::Counters(_) | Part::Delays(_) => {}
    }
}

// The record with a part of one input crafted.
pub fn put(
    inputs: Inputs,
    asked: PutAsked,
    buckets: usize,
    s: &[u8],
    lists: &mut AllLists<'_>,
) -> Inputs {
    let i = asked.input;
    let part = asked.part;
    store(part, i, buckets, s, lists);
    let slot = inputs_slots::slot_at(inputs, i);
    inputs_slots::put_slot(inputs, i, crafted(slot, part))
}
