// A window of lags: its rules and their laws (document 01, "LagWindow"), and the lists lent for it. But for their view there is no code: what is proved equal to the rules stands in lag_rows, lag_window and inputs_window.
#![tactic(auto)]

ghost use Rattle.std.specs.Prelude.{◌≡◌};

// The lists lent for one window: oldest first, the starts and the totals of 11 seconds and 11 rows of counts, unused places zero; and for each bucket the sum of its counts.
#[derive(Drop)]
pub struct WindowLists<'a> {
    pub starts: &'a mut [u64],
    pub totals: &'a mut [u64],
    pub counts: &'a mut [u32],
    pub sums: &'a mut [u64],
}

// The same lists, to be read.
#[derive(Clone, Copy)]
pub struct WindowView<'a> {
    pub starts: &'a [u64],
    pub totals: &'a [u64],
    pub counts: &'a [u32],
    pub sums: &'a [u64],
}

impl WindowLists<'_> {
    // A clause for each list: as one equation they would need a record of the four besides.
    pub fn view(&self) -> WindowView<'_>
        ensures starts { result.starts.now ≡ self.now.starts.now }
        ensures totals { result.totals.now ≡ self.now.totals.now }
        ensures counts { result.counts.now ≡ self.now.counts.now }
        ensures sums { result.sums.now ≡ self.now.sums.now }
    {
        WindowView {
            starts: &*self.starts,
            totals: &*self.totals,
            counts: &*self.counts,
            sums: &*self.sums,
        }
    }
}
