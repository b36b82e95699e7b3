// When to write a file that changes often: at most once per delay, a delay after the first change since the last write.
#![tactic(auto)]

ghost use Rattle.std.specs.Prelude.{◌≡◌};
ghost use Rattle.refusals.specs.Numbers.{number_in};
ghost use Rattle.state.specs.Coalesce.{fresh_coalesce, record_number, changed_of, pending_of, take_due_of, take_of, left_change, told, left_take};

use base::{RECORD_LIMIT, SPAN_LIMIT};
use refusals::{Refusal, check_time};

#[derive(Clone, Copy, Debug, PartialEq, Eq)]
pub struct Coalesce {
    pub due: Option<u64>,
}

// Whether to write now, and the record after it.
#[derive(Clone, Copy, Debug, PartialEq, Eq)]
pub struct Taken {
    pub write: bool,
    pub coalesce: Coalesce,
}

impl Coalesce {
    // Nothing changed yet.
    pub fn new() -> Self
        ensures { result ≡ fresh_coalesce }
    {
        Coalesce { due: None }
    }

    // The record is whole (check 6).
    #[tactic(auto, unfolding(base::specs::Choice::ask, crate::specs::Coalesce::record_number, crate::specs::Coalesce::whole_coalesce, crate::specs::Coalesce::whole_due))]
    fn check(self) -> Result<(), Refusal>
        ensures { number_in result ≡ record_number self }
    {
        if !self.due.is_none_or(|at| at <= RECORD_LIMIT) {
            return Err(Refusal::NotWhole);
        }
        Ok(())
    }

    // Something changed at `time`.
    pub fn changed(self, time: u64, delay: u64) -> Result<Self, Refusal>
        ensures { left_change self result ≡ changed_of self time delay }
    {
        if delay > SPAN_LIMIT {
            return Err(Refusal::Pause);
        }
        self.check()?;
        check_time(time)?;
        Ok(Coalesce {
            due: self.due.or(Some(time + delay)),
        })
    }

    // A write is waiting.
    pub fn pending(self) -> Result<bool, Refusal>
        ensures { told result ≡ pending_of self }
    {
        self.check()?;
        Ok(self.due.is_some())
    }

    // It is time to write; the caller writes now.
    pub fn take_due(self, time: u64) -> Result<Taken, Refusal>
        ensures { left_take self result ≡ take_due_of self time }
    {
        self.check()?;
        check_time(time)?;
        let write = self.due.is_some_and(|at| at <= time);
        let coalesce = if write { Coalesce::new() } else { self };
        Ok(Taken { write, coalesce })
    }

    // Write now whatever is waiting (shutdown, an operator's explicit action).
    pub fn take(self) -> Result<Taken, Refusal>
        ensures { left_take self result ≡ take_of self }
    {
        self.check()?;
        Ok(Taken {
            write: self.due.is_some(),
            coalesce: Coalesce::new(),
        })
    }
}
