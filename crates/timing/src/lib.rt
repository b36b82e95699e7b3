// The block clock: sample indices and times in nanoseconds.
#![tactic(auto)]

ghost use Rattle.std.specs.Prelude.{◌≡◌};
ghost use Rattle.timing.specs.Clock.{index_answer, time_answer, told};

use base::NANOS;
use refusals::{Refusal, check_time};

// Samples a second.
const RATE: u64 = 48_000;

// The sample index at a time, rounded down.
pub fn index_at(ns: u64) -> Result<u64, Refusal>
    ensures { told result ≡ index_answer 48000 ns }
{
    check_time(ns)?;
    let seconds = ns / NANOS;
    let rest = ns % NANOS;
    Ok(seconds * RATE + rest * RATE / NANOS)
}

// The time of a sample index, rounded up.
pub fn time_of(index: u64) -> Result<u64, Refusal>
    ensures { told result ≡ time_answer 48000 index }
{
    let seconds = index / RATE;
    let rest = (index % RATE * NANOS + (RATE - 1)) / RATE;
    let begins = seconds.checked_mul(NANOS).ok_or(Refusal::Time)?;
    begins.checked_add(rest).ok_or(Refusal::Time)
}
