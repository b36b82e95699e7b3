// When the Query API, which names an input's sender, is asked again after it did not answer: later each time.
#![tactic(auto)]

ghost use Rattle.std.specs.Prelude.{◌≡◌};
ghost use Rattle.base.specs.Choice.{ask};
ghost use Rattle.refusals.specs.Numbers.{number_in};
ghost use Rattle.sources.specs.Queries.{fresh_schedule, whole_schedule, query_up_of, next_wait, query_failed_of, told, left_failed};

use base::{NANOS, RECORD_LIMIT};
use refusals::{Refusal, check_time};

// The first and the longest wait after the Query API did not answer.
pub const BACKOFF_MIN: u64 = 5 * NANOS;

pub const BACKOFF_MAX: u64 = 60 * NANOS;

// The Query API is left alone until then; the wait that set it.
#[derive(Clone, Copy, Debug, PartialEq, Eq)]
pub struct Down {
    pub until: u64,
    pub wait: u64,
}

#[derive(Clone, Copy, Debug, PartialEq, Eq)]
pub struct Schedule {
    pub query_down: Option<Down>,
}

// The wait after a failure, and the record after it.
#[derive(Clone, Copy, Debug, PartialEq, Eq)]
pub struct Failed {
    pub wait: u64,
    pub schedule: Schedule,
}

impl Schedule {
    // Never down.
    pub fn new() -> Self
        ensures { result ≡ fresh_schedule }
    {
        Schedule { query_down: None }
    }

    // The record is whole (check 6).
    #[tactic(auto, unfolding(base::specs::Choice::ask, base::specs::Choice::both, crate::specs::Queries::whole_schedule, crate::specs::Queries::whole_down))]
    fn check(self) -> Result<(), Refusal>
        ensures { number_in result ≡ ask 6 (whole_schedule self) 0 }
    {
        if self.query_down.is_none_or(|down| down.until <= RECORD_LIMIT
            && down.wait <= BACKOFF_MAX)
        {
            return Ok(());
        }
        Err(Refusal::NotWhole)
    }

    // The wait after the one before: twice as long, at most the longest.
    #[tactic(auto, unfolding(crate::specs::Queries::next_wait))]
    fn next_wait(self) -> u64
        ensures { result ≡ next_wait self.query_down }
    {
        self.query_down.map_or(
            BACKOFF_MIN,
            |down| down.wait.saturating_mul(2).min(BACKOFF_MAX),
        )
    }

    // May the Query API be asked?
    pub fn query_up(self, time: u64) -> Result<bool, Refusal>
        ensures { told result ≡ query_up_of self time }
    {
        self.check()?;
        check_time(time)?;
        Ok(self.query_down.is_none_or(|down| down.until <= time))
    }

    // The Query API did not answer: wait twice as long as last time.
    pub fn query_failed(self, time: u64) -> Result<Failed, Refusal>
        ensures { left_failed self result ≡ query_failed_of self time }
    {
        self.check()?;
        check_time(time)?;
        let wait = self.next_wait();
        let down = Down {
            until: time + wait,
            wait,
        };
        Ok(Failed {
            wait,
            schedule: Schedule {
                query_down: Some(down),
            },
        })
    }
}
