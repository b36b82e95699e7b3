// On the lent lists of one window: a push step by step, whether the window is whole and its sums are right (check 6), and a window emptied. These functions ask something of their caller; the methods of `LagWindow` and the crates above use them after their checks.
ghost use Rattle.std.specs.Prelude.{◌≡◌, ℕ, ◌+◌, ◌-◌, ◌*◌, ◌<◌, ◌≤◌, true, List, length, slice_index};
ghost use Rattle.base.specs.Limits.{buckets_limit};
ghost use Rattle.base.specs.Lists.{bumped};
ghost use Rattle.rules_window.specs.Window.{cleared, stale, opens, bucket_of, counted, pushed, pushed_all};
ghost use Rattle.rules_window.specs.WholeWindow.{Shaped, whole_with_sums};
ghost use Rattle.rules_window.specs.ColumnSums.{column_sums};
ghost use Rattle.rules_window.specs.Checks.{newest_of, room_of, CanPush};
ghost use Rattle.rules_window.specs.Lending.{SameWindow};
ghost use Rattle.rules_window.specs.InPlace.{dropped_in_place, opened_in_place};
ghost use Rattle.lag_window.specs.Lent.{lent, window_lent, window_seen};

use super::LagWindow;
use base::inner::{spaced, span};
use base::{NANOS, TIME_LIMIT, blank, shift};
use lag_rows::inner::{right, row_places, take_rows};
use rules_window::{WindowLists, WindowView};

// ---- a push
// How many of the oldest seconds are more than 10 s old.
fn stale(starts: &[u64], time: u64) -> usize
    ensures { result ≡ stale time (length starts.now) starts.now }
{
    starts
        .iter()
        .position(|start| time.saturating_sub(*start) <= LagWindow::LAG_WINDOW)
        .unwrap_or(starts.len())
}

// Seconds more than 10 s old go, and their lags come off the sums. Most often there is none, and nothing is moved.
// Here and in a push, that the sums are the window's is a clause and no field's invariant: a window is taken by value and its lists are lent beside it (document 01, "LagWindow").
fn drop_old(window: LagWindow, time: u64, lists: &mut WindowLists<'_>) -> LagWindow
    requires seconds_bound { (window.seconds ≤ 11) × (length lists.old.starts.now ≡ 11) × (length lists.old.counts.now ≡ 11 * window.buckets) }
    requires sums_value { lists.old.sums.now ≡ column_sums (window_lent window lists.old) }
    ensures counts_after { window_lent result lists.new ≡ dropped_in_place time (window_lent window lists.old) }
    ensures sums_after { lists.new.sums.now ≡ column_sums (dropped_in_place time (window_lent window lists.old)) }
    ensures same { SameWindow lists.old lists.new }
{
    let n = window.seconds;
    let buckets = window.buckets;
    let k = stale(&lists.view().starts[..n], time);
    if k == 0 {
        return window;
    }
    // Both are lent as parts of one struct that is written, though the counts are only read.
    take_rows(buckets, k, &mut *lists.counts, &mut *lists.sums);
    shift(lists.starts, k, 0);
    shift(lists.totals, k, 0);
    shift(lists.counts, k * buckets, 0);
    LagWindow {
        seconds: n - k,
        ..window
    }
}

// None exists, or the newest is at least 1 s old.
fn opens(starts: &[u64], time: u64) -> bool
    ensures { result ≡ opens time (length starts.now) starts.now }
{
    starts
        .last()
        .is_none_or(|start| LagWindow::SECOND <= time.saturating_sub(*start))
}

// A second opens where it is time.
fn open_second(window: LagWindow, time: u64, starts: &mut [u64]) -> LagWindow
    requires seconds_in_bounds { window.seconds ≤ length starts.old }
    requires seconds_in_bounds_2 { opens time window.seconds starts.old ≡ true → window.seconds < length starts.old }
    ensures { (totals counts : List ℕ) → lent result starts.new totals counts ≡ opened_in_place time (lent window starts.old totals counts) }
{
    let n = window.seconds;
    if opens(&starts[..n], time) {
        starts[n] = time;
        LagWindow {
            seconds: n + 1,
            ..window
        }
    } else {
        window
    }
}

fn bucket(lag: u32, width: u32, buckets: usize) -> usize
    requires { (0 < width) × (0 < buckets) }
    ensures { (result ≡ bucket_of lag width buckets) × (result < buckets) }
{
    ((lag / width) as usize).min(buckets - 1)
}

// Where bucket b of row r stands. It is multiplied for the one lag that counts; lag_rows keeps where its rows begin.
fn place(r: usize, b: usize, buckets: usize) -> usize
    requires { (r < 11) × (b < buckets) × (buckets ≤ buckets_limit) }
    ensures { (result ≡ r * buckets + b) × (result < 11 * buckets) }
{
    r * buckets + b
}

// The lag counts in its bucket of the newest second, and in the bucket's sum.
fn count(window: LagWindow, lag: u32, lists: &mut WindowLists<'_>)
    requires seconds_nonzero { (0 < window.seconds) × (window.seconds ≤ 11) }
    requires width_nonzero { (0 < window.width) × (0 < window.buckets) × (window.buckets ≤ buckets_limit) }
    requires totals_len { length lists.old.totals.now ≡ 11 }
    requires counts_len { length lists.old.counts.now ≡ 11 * window.buckets }
    requires sums_len { length lists.old.sums.now ≡ window.buckets }
    requires seconds_bound { (slice_index lists.old.totals.now (window.seconds - 1) < 4294967295) × (slice_index lists.old.counts.now ((window.seconds - 1) * window.buckets + bucket_of lag window.width window.buckets) < 4294967295) }
    requires buckets_bound { slice_index lists.old.sums.now (bucket_of lag window.width window.buckets) ≤ 47244640245 }
    ensures counts_after { window_lent window lists.new ≡ counted lag (window_lent window lists.old) }
    ensures sums_after { lists.new.sums.now ≡ bumped (bucket_of lag window.width window.buckets) lists.old.sums.now }
    ensures same { SameWindow lists.old lists.new }
{
    let r = window.seconds - 1;
    let buckets = window.buckets;
    let width = window.width;
    let b = bucket(lag, width, buckets);
    let at = place(r, b, buckets);
    lists.totals[r] += 1;
    lists.counts[at] += 1;
    lists.sums[b] += 1;
}

// A push: with 11 places, seconds more than 10 s old go before a second opens; then the lag counts.
pub fn push(window: LagWindow, lag: u32, time: u64, lists: &mut WindowLists<'_>) -> LagWindow
    requires { CanPush time 1 (window_lent window lists.old) lists.old.sums.now }
    ensures counts_after { window_lent result lists.new ≡ pushed lag time (window_lent window lists.old) }
    ensures sums_after { lists.new.sums.now ≡ column_sums (pushed lag time (window_lent window lists.old)) }
    ensures same { SameWindow lists.old lists.new }
{
    let kept = drop_old(window, time, lists);
    let opened = open_second(kept, time, lists.starts);
    count(opened, lag, lists);
    opened
}

// The lags of one tick, one after the other.
pub fn push_all(
    window: LagWindow,
    lags: &[u32],
    time: u64,
    lists: &mut WindowLists<'_>,
) -> LagWindow
    requires { CanPush time (length lags.now) (window_lent window lists.old) lists.old.sums.now }
    ensures counts_after { window_lent result lists.new ≡ pushed_all time lags.now (window_lent window lists.old) }
    ensures sums_after { lists.new.sums.now ≡ column_sums (pushed_all time lags.now (window_lent window lists.old)) }
    ensures same { SameWindow lists.old lists.new }
{
    let mut w = window;
    for lag in lags {
        w = push(w, *lag, time, lists);
    }
    w
}

// The newest total that a push adds to: 0 if it opens a second. A total stands beside each start.
#[tactic(auto, unfolding(rules_window::specs::Checks::newest_of))]
fn newest(starts: &[u64], totals: &[u64], time: u64) -> u64
    requires { length starts.now ≡ length totals.now }
    ensures { result ≡ newest_of time (length starts.now) starts.now totals.now }
{
    if opens(starts, time) {
        return 0;
    }
    totals[starts.len() - 1]
}

// The newest total takes these lags (check 11).
pub fn room(starts: &[u64], totals: &[u64], time: u64, lags: usize) -> bool
    requires { length starts.now ≡ length totals.now }
    ensures { result ≡ room_of time lags (length starts.now) starts.now totals.now }
{
    let total = newest(starts, totals, time);
    total <= LagWindow::MOST && lags as u64 <= LagWindow::MOST - total
}

// ---- whether a window is whole and its sums are right (check 6)
// Whether the window is whole and its sums are right. Unused totals are zero, so that the sums of all 11 rows tell of the unused counts too: each count is read once, but in a window with a count of 2^20 or more.
pub fn whole(window: LagWindow, lists: WindowView<'_>) -> bool
    requires shaped { Shaped (window_seen window lists) }
    requires sums_len { length lists.sums.now ≡ window.buckets }
    ensures { result ≡ whole_with_sums (window_seen window lists.entry) lists.entry.sums.now }
{
    let n = window.seconds;
    let buckets = window.buckets;
    if LagWindow::SECONDS < n {
        return false;
    }
    if !spaced(NANOS, n, lists.starts) {
        return false;
    }
    if LagWindow::LAG_WINDOW < span(n, lists.starts) {
        return false;
    }
    if !lists.starts[..n].iter().all(|at| *at <= TIME_LIMIT) {
        return false;
    }
    if !blank(lists.starts, n) {
        return false;
    }
    if !blank(lists.totals, n) {
        return false;
    }
    let places = row_places(buckets);
    right(&places, lists)
}

// ---- an emptied window
// The window without seconds: every lent place becomes zero.
pub fn emptied(window: LagWindow, lists: &mut WindowLists<'_>) -> LagWindow
    requires shaped { Shaped (window_lent window lists.old) }
    requires sums_len { length lists.old.sums.now ≡ window.buckets }
    ensures counts_after { window_lent result lists.new ≡ cleared (window_lent window lists.old) }
    ensures sums_after { lists.new.sums.now ≡ column_sums (cleared (window_lent window lists.old)) }
    ensures same { SameWindow lists.old lists.new }
{
    lists.starts.fill(0);
    lists.totals.fill(0);
    lists.counts.fill(0);
    lists.sums.fill(0);
    LagWindow {
        seconds: 0,
        ..window
    }
}
