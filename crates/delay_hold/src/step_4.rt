// Step 4 of `next`: the peaks in two lent lists of 600, oldest first, unused places zero.
ghost use Rattle.std.specs.Prelude.{◌≡◌, ◌<◌, ◌≤◌, true, length, take};
ghost use Rattle.base.specs.Lists.{padded};
ghost use Rattle.delay_hold.specs.Step4Peaks.{is_new_at, old_count, times_after, lags_after, most_peaks};
ghost use Rattle.delay_hold.specs.Step4InPlace.{count_joined, times_joined, lags_joined, Placed};
ghost use Rattle.delay_hold.specs.Lending.{SameHold};

use super::HoldLists;

// How many of the oldest peaks are at least window old.
fn count_old(times: &[u64], window: u64, time: u64) -> usize
    ensures { result ≡ old_count times.now window time }
{
    times
        .iter()
        .position(|at| time.saturating_sub(*at) < window)
        .unwrap_or(times.len())
}

// There is no peak, or the newest is at least 1 s old.
fn is_new(times: &[u64], time: u64) -> bool
    ensures { result ≡ is_new_at (length times.now) times.now time }
{
    times
        .last()
        .is_none_or(|at| base::NANOS <= time.saturating_sub(*at))
}

// A lag joins the newest peak if that is under 1 s old, else is a new peak.
fn join(lists: &mut HoldLists<'_>, n: usize, lag: Option<u32>, time: u64) -> usize
    requires { (n ≤ length lists.old.times.now) × (n ≤ length lists.old.lags.now) × (is_new_at n lists.old.times.now time ≡ true → (n < length lists.old.times.now) × (n < length lists.old.lags.now)) }
    ensures joined { (result ≡ count_joined n lists.old.times.now lag time)
        × (lists.new.times.now ≡ times_joined n lists.old.times.now lag time)
        × (lists.new.lags.now ≡ lags_joined n lists.old.times.now lists.old.lags.now lag time) }
    ensures same { SameHold lists.old lists.new }
{
    let Some(l) = lag else {
        return n;
    };
    if is_new(&lists.view().times[..n], time) {
        lists.times[n] = time;
        lists.lags[n] = l;
        return n + 1;
    }
    let last = n - 1;
    let high = lists.lags[last].max(l);
    lists.lags[last] = high;
    n
}

// With 600 places the old peaks go first. A peak that joins or is new is never old, so the order makes no difference.
pub(crate) fn peaks_next(
    lists: &mut HoldLists<'_>,
    n: usize,
    lag: Option<u32>,
    window: u64,
    time: u64,
) -> usize
    requires { Placed n lists.old.times.now lists.old.lags.now window }
    ensures peaks { (result ≡ length (times_after (take n lists.old.times.now) lag window time))
        × (lists.new.times.now ≡ padded most_peaks (times_after (take n lists.old.times.now) lag window time))
        × (lists.new.lags.now ≡ padded most_peaks (lags_after (take n lists.old.times.now) (take n lists.old.lags.now) lag window time)) }
    ensures same { SameHold lists.old lists.new }
{
    let k = count_old(&lists.view().times[..n], window, time);
    base::shift(lists.times, k, 0);
    base::shift(lists.lags, k, 0);
    join(lists, n - k, lag, time)
}
