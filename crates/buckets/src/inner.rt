// These functions ask something of their caller; the crates above use them after their checks.
ghost use Rattle.std.specs.Prelude.{◌≡◌, ◌≤◌};
ghost use Rattle.base.specs.Limits.{samples_limit};
ghost use Rattle.buckets.specs.Ranges.{buckets_of};

// The samples of a tenth of a second: how far the buckets reach beyond offset and maximum.
const TENTH: u32 = 4_800;

// The buckets of a second for these settings.
pub fn buckets_of(offset: u32, maximum: u32, width: u32) -> usize
    requires { (offset ≤ samples_limit) × (maximum ≤ samples_limit) × (1 ≤ width) }
    ensures { result ≡ buckets_of offset maximum width }
{
    ((offset + maximum + TENTH) / width) as usize + 2
}
