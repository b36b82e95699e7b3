// Parts of a lent buffer of bytes.
ghost use Rattle.std.specs.Prelude.{◌≡◌, ◌-◌, take, drop};

// The bytes from `from` up to `to`, as far as there are any.
pub fn part(s: &[u8], from: usize, to: usize) -> &[u8]
    ensures { result.now ≡ take (to - from) (drop from s.now) }
{
    let end = to.min(s.len());
    let start = from.min(end);
    &s[start..end]
}
