// The window of input j, on its part of the lists of all inputs. These functions ask something of their caller, who has made the checks.
// Each cuts its parts itself: a part is followed back to its list only where its two ends are written beside it.
ghost use Rattle.std.specs.Prelude.{◌≡◌, ◌+◌, ◌*◌, ◌≤◌, true, [], length};
ghost use Rattle.base.specs.Lists.{part, patched};
ghost use Rattle.base.specs.Rows.{span_of};
ghost use Rattle.base.specs.Limits.{time_limit, width_limit, buckets_limit};
ghost use Rattle.policy.specs.Settings as settings;
ghost use Rattle.rules_window.specs.Window.{cleared, pushed_all};
ghost use Rattle.lag_window.specs.Lent.{lent};
ghost use Rattle.rules_record.specs.Lending.{lists_lent, lists_seen, SameLists};
ghost use Rattle.inputs_window.specs.Windows.{window_in, all_windows};
ghost use Rattle.rules_window.specs.WholeWindow.{whole_window, whole_with_sums, Shaped};
ghost use Rattle.rules_window.specs.Checks.{room_for, CanPush};
ghost use Rattle.rules_window.specs.Quantile.{found, quantile_upto, Placeable};
ghost use Rattle.rules_window.specs.ColumnSums.{column_sums, as_one_second};
ghost use Rattle.rules_window.specs.Parts.{part_of, placed, PartsIn};

use lag_window::LagWindow;
use policy::DelayPolicy;
use rules_record::{AllLists, AllView, Slot};
use rules_window::{WindowLists, WindowView};

// The window of the input with this slot. The record itself is not handed on: it would be copied for each input.
pub fn window_in(policy: DelayPolicy, width: u32, slot: Slot) -> LagWindow
    requires { settings.Sound policy × (1 ≤ width) }
    ensures { result ≡ window_in policy width slot }
{
    let buckets = buckets::inner::buckets_of(policy.read_offset, policy.delay_max, width);
    LagWindow {
        seconds: slot.lag_seconds,
        buckets,
        width,
    }
}

// Whether the window of input j is whole and its sums are right (check 6).
pub fn whole(window: LagWindow, j: usize, lists: AllView<'_>) -> bool
    requires parts_in { PartsIn j (all_windows window (lists_seen lists)) }
    requires buckets_in_bounds { j * window.buckets + window.buckets ≤ length lists.sums.now }
    ensures { result ≡ whole_with_sums (part_of j (all_windows window (lists_seen lists.entry))) (part (j * window.buckets) window.buckets lists.entry.sums.now) }
{
    let a = j * LagWindow::SECONDS;
    let e = a + LagWindow::SECONDS;
    let buckets = window.buckets;
    let n = LagWindow::SECONDS * buckets;
    let from = j * n;
    let to = from + n;
    let first = j * buckets;
    let last = first + buckets;
    let own = WindowView {
        starts: &lists.starts[a..e],
        totals: &lists.totals[a..e],
        counts: &lists.counts[from..to],
        sums: &lists.sums[first..last],
    };
    lag_window::inner::whole(window, own)
}

// The newest total of input j takes these lags (check 11).
pub fn room(
    window: LagWindow,
    j: usize,
    time: u64,
    lags: usize,
    starts: &[u64],
    totals: &[u64],
) -> bool
    requires { (window.seconds ≤ 11) × (j * 11 + 11 ≤ length starts.now) × (j * 11 + 11 ≤ length totals.now) }
    ensures { result ≡ room_for time lags (part_of j (lent window starts.now totals.now [])) }
{
    let a = j * LagWindow::SECONDS;
    let e = a + window.seconds;
    lag_window::inner::room(&starts[a..e], &totals[a..e], time, lags)
}

// The lags of one tick are pushed to a window, on its own lists. These come singly: a part that goes straight into a struct is not followed back to its list.
fn push_own(
    window: LagWindow,
    lags: &[u32],
    time: u64,
    starts: &mut [u64],
    totals: &mut [u64],
    counts: &mut [u32],
    sums: &mut [u64],
) -> LagWindow
    requires { CanPush time (length lags.now) (lent window starts.old totals.old counts.old) sums.old }
    ensures counts_after { lent result starts.new totals.new counts.new ≡ pushed_all time lags.now (lent window starts.old totals.old counts.old) }
    ensures sums_after { sums.new ≡ column_sums (pushed_all time lags.now (lent window starts.old totals.old counts.old)) }
{
    let mut own = WindowLists {
        starts,
        totals,
        counts,
        sums,
    };
    lag_window::inner::push_all(window, lags, time, &mut own)
}

// The lags of one tick are pushed to the window of input j.
pub fn push_all(
    window: LagWindow,
    j: usize,
    lags: &[u32],
    time: u64,
    lists: &mut AllLists<'_>,
) -> LagWindow
    requires parts_in { PartsIn j (all_windows window (lists_lent lists.old)) }
    requires buckets_in_bounds { j * window.buckets + window.buckets ≤ length lists.old.sums.now }
    requires counts_value { whole_window (part_of j (all_windows window (lists_lent lists.old))) ≡ true }
    requires sums_value { part (j * window.buckets) window.buckets lists.old.sums.now ≡ column_sums (part_of j (all_windows window (lists_lent lists.old))) }
    requires time_le_time_limit { time ≤ time_limit }
    requires counts_value_2 { room_for time (length lags.now) (part_of j (all_windows window (lists_lent lists.old))) ≡ true }
    ensures counts_after { all_windows result (lists_lent lists.new) ≡ placed j (pushed_all time lags.now (part_of j (all_windows window (lists_lent lists.old)))) (all_windows window (lists_lent lists.old)) }
    ensures sums_after { lists.new.sums.now ≡ patched (j * window.buckets) window.buckets (column_sums (pushed_all time lags.now (part_of j (all_windows window (lists_lent lists.old))))) lists.old.sums.now }
    ensures times_kept { lists.new.times.now ≡ lists.old.times.now }
    ensures peaks_kept { lists.new.peaks.now ≡ lists.old.peaks.now }
    ensures same { SameLists lists.old lists.new }
{
    let a = j * LagWindow::SECONDS;
    let e = a + LagWindow::SECONDS;
    let buckets = window.buckets;
    let n = LagWindow::SECONDS * buckets;
    let from = j * n;
    let to = from + n;
    let first = j * buckets;
    let last = first + buckets;
    push_own(
        window,
        lags,
        time,
        &mut lists.starts[a..e],
        &mut lists.totals[a..e],
        &mut lists.counts[from..to],
        &mut lists.sums[first..last],
    )
}

// A window is cleared, on its own lists, which come singly as to `push_own`.
fn clear_own(
    window: LagWindow,
    starts: &mut [u64],
    totals: &mut [u64],
    counts: &mut [u32],
    sums: &mut [u64],
) -> LagWindow
    requires shaped { Shaped (lent window starts.old totals.old counts.old) }
    requires sums_len { length sums.old ≡ window.buckets }
    ensures counts_after { lent result starts.new totals.new counts.new ≡ cleared (lent window starts.old totals.old counts.old) }
    ensures sums_after { sums.new ≡ column_sums (cleared (lent window starts.old totals.old counts.old)) }
{
    let mut own = WindowLists {
        starts,
        totals,
        counts,
        sums,
    };
    lag_window::inner::emptied(window, &mut own)
}

// The window of input j is cleared.
pub fn clear(window: LagWindow, j: usize, lists: &mut AllLists<'_>) -> LagWindow
    requires parts_in { PartsIn j (all_windows window (lists_lent lists.old)) }
    requires buckets_in_bounds { j * window.buckets + window.buckets ≤ length lists.old.sums.now }
    ensures counts_after { all_windows result (lists_lent lists.new) ≡ placed j (cleared (part_of j (all_windows window (lists_lent lists.old)))) (all_windows window (lists_lent lists.old)) }
    ensures sums_after { lists.new.sums.now ≡ patched (j * window.buckets) window.buckets (column_sums (cleared (part_of j (all_windows window (lists_lent lists.old))))) lists.old.sums.now }
    ensures times_kept { lists.new.times.now ≡ lists.old.times.now }
    ensures peaks_kept { lists.new.peaks.now ≡ lists.old.peaks.now }
    ensures same { SameLists lists.old lists.new }
{
    let a = j * LagWindow::SECONDS;
    let e = a + LagWindow::SECONDS;
    let buckets = window.buckets;
    let n = LagWindow::SECONDS * buckets;
    let from = j * n;
    let to = from + n;
    let first = j * buckets;
    let last = first + buckets;
    clear_own(
        window,
        &mut lists.starts[a..e],
        &mut lists.totals[a..e],
        &mut lists.counts[from..to],
        &mut lists.sums[first..last],
    )
}

// The span of the window of input j.
pub fn span(window: LagWindow, j: usize, starts: &[u64]) -> u64
    requires { (window.seconds ≤ 11) × (j * 11 + 11 ≤ length starts.now) }
    ensures { result ≡ span_of window.seconds (part (j * 11) 11 starts.now) }
{
    let a = j * LagWindow::SECONDS;
    let e = a + LagWindow::SECONDS;
    base::inner::span(window.seconds, &starts[a..e])
}

// The quantile q of the lags of input j up to limit: it reads the row of sums and nothing else.
pub fn quantile_upto(window: LagWindow, j: usize, q: f64, limit: u32, sums: &[u64]) -> Option<u32>
    requires buckets_le_buckets_limit { (window.buckets ≤ buckets_limit) × (1 ≤ window.width) × (window.width ≤ width_limit) }
    requires buckets_in_bounds { j * window.buckets + window.buckets ≤ length sums.now }
    requires placeable { Placeable q limit (as_one_second window.buckets window.width (part (j * window.buckets) window.buckets sums.now)) }
    ensures { found result ≡ quantile_upto q limit (as_one_second window.buckets window.width (part (j * window.buckets) window.buckets sums.now)) }
{
    let buckets = window.buckets;
    let first = j * buckets;
    let last = first + buckets;
    lag_rows::inner::quantile_upto(buckets, window.width, q, limit, &sums[first..last])
}
