// What a word gives: as the calls take it. No impl From: each would stand beside the type that it makes, in crates that know no line.
ghost use Rattle.std.specs.Prelude.{◌≡◌};
ghost use Rattle.text_requests.specs.Parts.{flow_of, kind_of, setting_of, down_of, low_of, timer_of, seed_of};

use delay_hold::{LowerTimer, Seed};
use rules_calls::DelaySetting;
use rules_record::{AutoTag, ExtraDelay, Flow};
use sources::Down;
use text_print::bits::double;

// The largest lag that a word can say.
pub const MOST_LAG: u64 = u32::MAX as u64;

// How many values 64 bits have.
const WORDS: u128 = u64::MAX as u128 + 1;

// Of a flow's 128 bits.
#[tactic(auto, unfolding(crate::specs::Parts::flow_of))]
pub fn flow_of(bits: u128) -> Flow
    ensures { result ≡ flow_of bits }
{
    Flow {
        high: (bits / WORDS) as u64,
        low: (bits % WORDS) as u64,
    }
}

#[tactic(auto, unfolding(crate::specs::Parts::kind_of))]
pub fn kind_of(manual: Option<u64>) -> ExtraDelay
    ensures { result ≡ kind_of manual }
{
    match manual {
        Some(bits) => ExtraDelay::Ms(double(bits)),
        None => ExtraDelay::Auto(AutoTag::Auto),
    }
}

// A kind that is not the desk's. It differs from `kind_of` in the type that its call takes; from one type to the other it is no shorter.
#[tactic(auto, unfolding(crate::specs::Parts::setting_of))]
pub fn setting_of(manual: Option<u64>) -> DelaySetting
    ensures { result ≡ setting_of manual }
{
    match manual {
        Some(bits) => DelaySetting::Ms(double(bits)),
        None => DelaySetting::Auto(AutoTag::Auto),
    }
}

#[tactic(auto, unfolding(crate::specs::Parts::down_of))]
pub fn down_of(pair: Option<(u64, u64)>) -> Option<Down>
    ensures { result ≡ down_of pair }
{
    let (until, wait) = pair?;
    Some(Down { until, wait })
}

// Of a number that has 32 bits. `maybe_pair` bounded it (MOST_LAG); that bound does not come along in a request by value.
#[tactic(auto, unfolding(crate::specs::Parts::low_of))]
fn low(n: u64) -> u32
    ensures { result ≡ low_of n }
{
    u32::try_from(n).unwrap_or(0)
}

#[tactic(auto, unfolding(crate::specs::Parts::timer_of))]
pub fn timer_of(pair: Option<(u64, u64)>) -> Option<LowerTimer>
    ensures { result ≡ timer_of pair }
{
    let (since, highest) = pair?;
    Some(LowerTimer {
        since,
        highest: low(highest),
    })
}

#[tactic(auto, unfolding(crate::specs::Parts::seed_of))]
pub fn seed_of(pair: Option<(u64, u64)>) -> Option<Seed>
    ensures { result ≡ seed_of pair }
{
    let (since, delay) = pair?;
    Some(Seed {
        since,
        delay: low(delay),
    })
}
