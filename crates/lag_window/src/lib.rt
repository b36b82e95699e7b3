// The lateness of one input's lags: a histogram for each of the last seconds, over lent lists (document 01, "LagWindow").
#![tactic(auto)]

ghost use Rattle.std.specs.Prelude.{◌≡◌, ◌≤◌, length};
ghost use Rattle.base.specs.Limits.{buckets_limit};
ghost use Rattle.refusals.specs.Numbers.{number_in};
ghost use Rattle.lag_window.specs.Fit.{lists_fit};
ghost use Rattle.lag_window.specs.Lent.{window_lent, window_seen, no_window, left_window};
ghost use Rattle.rules_window.specs.Lending.{SameWindow};
ghost use Rattle.rules_window.specs.Quantile.{told};
ghost use Rattle.rules_window.specs.Checks.{told_span, checked, from_zero_to_one, new_number, push_number, quantile_number, new_reply, push_reply, clear_reply, span_reply, quantile_upto_reply, quantile_reply};

use refusals::Refusal;
use rules_window::{WindowLists, WindowView};

// Functions that ask something of their caller; the crates above use them after their checks.
pub mod inner;

// How many seconds are in use, how many buckets a second has, and a bucket's width in samples.
// The lent lists hold, oldest first, the starts and totals of 11 seconds and 11 rows of counts, unused places zero, and for each bucket the sum of its counts.
#[derive(Clone, Copy, Debug, PartialEq, Eq)]
pub struct LagWindow {
    pub seconds: usize,
    pub buckets: usize,
    pub width: u32,
}

impl LagWindow {
    pub const SECONDS: usize = lag_rows::inner::SECONDS;

    // A second goes once it is older than this: 10 s.
    pub const LAG_WINDOW: u64 = 10 * base::NANOS;

    // A second opens once the newest is this old: 1 s.
    pub const SECOND: u64 = base::NANOS;

    // The latest time that the calls admit (check 8).
    pub(crate) const LATEST: u64 = base::TIME_LIMIT;

    // The most lags that one second counts (check 11).
    pub(crate) const MOST: u64 = lag_rows::inner::MOST;

    // Has each lent list its exact length, for so many buckets (check 5)?
    #[tactic(auto, unfolding(crate::specs::Fit::lists_fit, base::specs::Choice::both))]
    fn lists_fit(buckets: usize, lists: WindowView<'_>) -> bool
        requires { buckets ≤ buckets_limit }
        ensures { result ≡ lists_fit buckets (length lists.entry.starts.now) (length lists.entry.totals.now) (length lists.entry.counts.now) (length lists.entry.sums.now) }
    {
        lists.starts.len() == LagWindow::SECONDS
            && lists.totals.len() == LagWindow::SECONDS
            && lists.counts.len() == LagWindow::SECONDS * buckets
            && lists.sums.len() == buckets
    }

    // The checks of `new`: 2, 17, 18 and 5.
    #[tactic(auto, unfolding(rules_window::specs::Checks::new_number, base::specs::Choice::ask), using(crate::proofs::Fits::fit_ask))]
    fn check_new(
        offset: u32,
        maximum: u32,
        width: u32,
        lists: WindowView<'_>,
    ) -> Result<(), Refusal>
        ensures { number_in result ≡ new_number offset maximum width (length lists.entry.starts.now) (length lists.entry.totals.now) (length lists.entry.counts.now) (length lists.entry.sums.now) }
    {
        buckets::check_ranges(offset, maximum, width)?;
        let buckets = buckets::inner::buckets_of(offset, maximum, width);
        if !LagWindow::lists_fit(buckets, lists) {
            return Err(Refusal::ListLength);
        }
        Ok(())
    }

    // A fresh window for these settings; every lent place is written.
    pub fn new(
        offset: u32,
        maximum: u32,
        width: u32,
        lists: &mut WindowLists<'_>,
    ) -> Result<LagWindow, Refusal>
        ensures left { left_window no_window result lists.new ≡ new_reply offset maximum width lists.old.starts.now lists.old.totals.now lists.old.counts.now lists.old.sums.now }
        ensures same { SameWindow lists.old lists.new }
    {
        LagWindow::check_new(offset, maximum, width, lists.view())?;
        let buckets = buckets::inner::buckets_of(offset, maximum, width);
        let made = LagWindow {
            seconds: 0,
            buckets,
            width,
        };
        Ok(inner::emptied(made, lists))
    }

    // The checks that every call on a window makes: 17, 18, 5 and 6.
    #[tactic(auto, unfolding(rules_window::specs::Checks::checked, base::specs::Choice::ask), using(crate::proofs::Fits::fit_ask))]
    fn check(self, lists: WindowView<'_>) -> Result<(), Refusal>
        ensures { number_in result ≡ checked (window_seen self lists.entry) lists.entry.sums.now 0 }
    {
        if !buckets::width_allowed(self.width) {
            return Err(Refusal::Width);
        }
        if !buckets::buckets_allowed(self.buckets) {
            return Err(Refusal::Buckets);
        }
        if !LagWindow::lists_fit(self.buckets, lists) {
            return Err(Refusal::ListLength);
        }
        if !inner::whole(self, lists) {
            return Err(Refusal::NotWhole);
        }
        Ok(())
    }

    // The checks of a push: those of a window, then 8 and 11.
    fn check_push(self, time: u64, lists: WindowView<'_>) -> Result<(), Refusal>
        ensures { number_in result ≡ push_number time (window_seen self lists.entry) lists.entry.sums.now }
    {
        self.check(lists)?;
        if LagWindow::LATEST < time {
            return Err(Refusal::Time);
        }
        let n = self.seconds;
        if !inner::room(&lists.starts[..n], &lists.totals[..n], time, 1) {
            return Err(Refusal::SecondFull);
        }
        Ok(())
    }

    // Counts a lag: a second opens if none exists or the newest is at least 1 s old, then seconds more than 10 s old go.
    pub fn push(
        self,
        lag: u32,
        time: u64,
        lists: &mut WindowLists<'_>,
    ) -> Result<LagWindow, Refusal>
        ensures left { left_window self result lists.new ≡ push_reply lag time (window_lent self lists.old) lists.old.sums.now }
        ensures same { SameWindow lists.old lists.new }
    {
        self.check_push(time, lists.view())?;
        Ok(inner::push(self, lag, time, lists))
    }

    // Forgets every second.
    pub fn clear(self, lists: &mut WindowLists<'_>) -> Result<LagWindow, Refusal>
        ensures left { left_window self result lists.new ≡ clear_reply (window_lent self lists.old) lists.old.sums.now }
        ensures same { SameWindow lists.old lists.new }
    {
        self.check(lists.view())?;
        Ok(inner::emptied(self, lists))
    }

    // From the first to the last second in use: one second of lags at least before the first automatic setting.
    pub fn span(self, lists: WindowView<'_>) -> Result<u64, Refusal>
        ensures { told_span result ≡ span_reply (window_seen self lists.entry) lists.entry.sums.now }
    {
        self.check(lists)?;
        Ok(base::inner::span(self.seconds, lists.starts))
    }

    // q is a number from 0 to 1 (check 14).
    fn from_zero_to_one(q: f64) -> bool
        ensures { result ≡ from_zero_to_one q }
    {
        q >= 0.0 && q <= 1.0
    }

    // The checks of a quantile: those of a window, then 14.
    fn check_quantile(self, q: f64, lists: WindowView<'_>) -> Result<(), Refusal>
        ensures { number_in result ≡ quantile_number q (window_seen self lists.entry) lists.entry.sums.now }
    {
        self.check(lists)?;
        if !LagWindow::from_zero_to_one(q) {
            return Err(Refusal::Quantile);
        }
        Ok(())
    }

    // The end of the bucket that holds quantile q of all lags. Lags beyond the window's range share its top bucket.
    pub fn quantile(self, q: f64, lists: WindowView<'_>) -> Result<Option<u32>, Refusal>
        ensures { told result ≡ quantile_reply q (window_seen self lists.entry) lists.entry.sums.now }
    {
        self.quantile_upto(q, 4_294_967_295, lists)
    }

    // The end of the bucket that holds quantile q of the lags up to limit: a lag beyond it must not move an automatic delay.
    pub fn quantile_upto(
        self,
        q: f64,
        limit: u32,
        lists: WindowView<'_>,
    ) -> Result<Option<u32>, Refusal>
        ensures { told result ≡ quantile_upto_reply q limit (window_seen self lists.entry) lists.entry.sums.now }
    {
        self.check_quantile(q, lists)?;
        Ok(lag_rows::inner::quantile_upto(self.buckets, self.width, q, limit, lists.sums))
    }
}
