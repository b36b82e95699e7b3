// Offset, maximum and W, from which the buckets of a second follow: their ranges (checks 2, 17 and 18).
#![tactic(auto)]

ghost use Rattle.std.specs.Prelude.{◌≡◌};
ghost use Rattle.refusals.specs.Numbers.{number_in};
ghost use Rattle.buckets.specs.Ranges.{reaches_allowed, width_allowed, buckets_allowed, ranges_number};

use refusals::Refusal;

// Functions that ask something of their caller; the crates above use them after their checks.
pub mod inner;

// Offset and maximum are at most 96,000 (check 2).
#[tactic(auto, unfolding(crate::specs::Ranges::reaches_allowed, base::specs::Choice::both))]
pub fn reaches_allowed(offset: u32, maximum: u32) -> bool
    ensures { result ≡ reaches_allowed offset maximum }
{
    offset <= base::SAMPLES_LIMIT && maximum <= base::SAMPLES_LIMIT
}

// W is from 1 to 4,800 (check 17).
#[tactic(auto, unfolding(crate::specs::Ranges::width_allowed, base::specs::Choice::both))]
pub fn width_allowed(width: u32) -> bool
    ensures { result ≡ width_allowed width }
{
    1 <= width && width <= base::WIDTH_LIMIT
}

// A window alone has from 1 to 4,096 buckets (check 18).
#[tactic(auto, unfolding(crate::specs::Ranges::buckets_allowed, crate::specs::Ranges::buckets_few, base::specs::Choice::both))]
pub fn buckets_allowed(buckets: usize) -> bool
    ensures { result ≡ buckets_allowed buckets }
{
    1 <= buckets && buckets <= base::BUCKETS_LIMIT
}

// Checks 2, 17 and 18, in this order, of three numbers of the settings, each from another field of its caller.
pub fn check_ranges(offset: u32, maximum: u32, width: u32) -> Result<(), Refusal>
    ensures { number_in result ≡ ranges_number offset maximum width 0 }
{
    if !reaches_allowed(offset, maximum) {
        return Err(Refusal::Reach);
    }
    if !width_allowed(width) {
        return Err(Refusal::Width);
    }
    if base::BUCKETS_LIMIT < inner::buckets_of(offset, maximum, width) {
        return Err(Refusal::Buckets);
    }
    Ok(())
}
