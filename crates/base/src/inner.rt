// The first n times of a lent list. These functions ask that there are so many. A list and n, and not its part: check 6 of a window and of a hold speaks so of the lent list.
ghost use Rattle.std.specs.Prelude.{◌≡◌, ◌-◌, ◌≤◌, length};
ghost use Rattle.base.specs.Rows.{apart, span_of};

// Each of the n times is at least gap after the one before. A loop: a closure would have to be told that a pair holds two times.
pub fn spaced(gap: u64, n: usize, times: &[u64]) -> bool
    requires { n ≤ length times.now }
    ensures { result ≡ apart gap (n - 1) times.now }
{
    for pair in times[..n].windows(2) {
        if pair[1].saturating_sub(pair[0]) < gap {
            return false;
        }
    }
    true
}

// The newest time less the oldest, 0 where there is none.
pub fn span(n: usize, times: &[u64]) -> u64
    requires { n ≤ length times.now }
    ensures { result ≡ span_of n times.now }
{
    match &times[..n] {
        [oldest, .., newest] => newest.saturating_sub(*oldest),
        _ => 0,
    }
}
