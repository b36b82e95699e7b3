// The refusals of the calls: a call makes its checks in the papers' order, and the first that says no is its answer (document 01, "The gatekeeper's questions"; document 02).
#![tactic(auto)]

ghost use Rattle.std.specs.Prelude.{◌≡◌};
ghost use Rattle.base.specs.Choice.{ask};
ghost use Rattle.base.specs.Limits.{timely};
ghost use Rattle.refusals.specs.Numbers.{number_of, number_in};

use std::error::Error;
use std::fmt;

// Which check said no; the papers number the checks.
#[derive(Clone, Copy, Debug, PartialEq, Eq, Hash)]
pub enum Refusal {
    // 1: fewer than 1 or more than 16 inputs.
    InputCount = 1,
    // 2: a read offset or a maximum delay above 96,000 samples.
    Reach = 2,
    // 3: a hold, stall or delay above 600 s; a window outside 1 to 600 s.
    Pause = 3,
    // 4: a margin above 96,000 samples; a share or a percent out of range.
    Margin = 4,
    // 5: a lent list that has not its exact length.
    ListLength = 5,
    // 6: a record that is not whole.
    NotWhole = 6,
    // 7: an input that does not exist.
    NoInput = 7,
    // 8: a time or an index too late.
    Time = 8,
    // 9: a new flow where 64 are known.
    FlowTable = 9,
    // 10: an applied delay, channels or lag counts that cannot be.
    Shown = 10,
    // 11: a second's total that would pass 4,294,967,295.
    SecondFull = 11,
    // 12: a manual delay that is no number from 0 to `ms`(maximum).
    ManualDelay = 12,
    // 13: a confirmation where no proposal is pending.
    NoProposal = 13,
    // 14: a quantile that is no number from 0 to 1.
    Quantile = 14,
    // 15: of `next` alone: a current delay or a percentile out of range.
    Current = 15,
    // 17: a bucket width W outside 1 to 4,800 samples.
    Width = 17,
    // 18: more than 4,096 buckets; of a window alone, none too.
    Buckets = 18,
    // 19: a delay file with a wrong mark, version, count or length.
    FileHead = 19,
    // 20: a delay file whose flows do not rise strictly by their bytes.
    FileOrder = 20,
    // 21: a manual delay of the listening desk above its limit.
    DeskDelay = 21,
}

impl Refusal {
    // The number of the check in the papers.
    pub fn number(self) -> u32
        ensures { result ≡ number_of self }
    {
        self as u32
    }
}

impl From<Refusal> for u32 {
    ghost from_gives = { λ refusal number. number ≡ number_of refusal };

    fn from(refusal: Refusal) -> u32 {
        refusal.number()
    }
}

impl fmt::Display for Refusal {
    fn fmt<W: fmt::Write>(&self, f: &mut fmt::Formatter<W>) -> fmt::Result {
        f.write_str(match self {
            Refusal::InputCount => "fewer than 1 or more than 16 inputs",
            Refusal::Reach => "a read offset or a maximum delay above 96,000 samples",
            Refusal::Pause => "a hold, stall or delay above 600 s, or a window outside 1 to 600 s",
            Refusal::Margin =>
                "a margin above 96,000 samples, or a share or a percent out of range",
            Refusal::ListLength => "a lent list that has not its exact length",
            Refusal::NotWhole => "a record that is not whole",
            Refusal::NoInput => "an input that does not exist",
            Refusal::Time => "a time or an index too late",
            Refusal::FlowTable => "a new flow where 64 are known",
            Refusal::Shown => "an applied delay, channels or lag counts that cannot be",
            Refusal::SecondFull => "a second's total that would pass 4,294,967,295",
            Refusal::ManualDelay => "a manual delay that is no number from 0 to the maximum",
            Refusal::NoProposal => "a confirmation where no proposal is pending",
            Refusal::Quantile => "a quantile that is no number from 0 to 1",
            Refusal::Current => "a current delay or a percentile out of range",
            Refusal::Width => "a bucket width outside 1 to 4,800 samples",
            Refusal::Buckets => "more than 4,096 buckets, or none",
            Refusal::FileHead => "a delay file with a wrong mark, version, count or length",
            Refusal::FileOrder => "a delay file whose flows do not rise strictly by their bytes",
            Refusal::DeskDelay => "a manual delay of the listening desk above its limit",
        })
    }
}

impl Error for Refusal {}

// A time is at most 4 times 10^18 nanoseconds (check 8).
#[tactic(auto, unfolding(base::specs::Choice::ask))]
pub fn check_time(time: u64) -> Result<(), Refusal>
    ensures { number_in result ≡ ask 8 (timely time) 0 }
{
    if base::TIME_LIMIT < time {
        return Err(Refusal::Time);
    }
    Ok(())
}
