// The answer to a call that leaves nothing new, and to one that leaves more than a new value.
ghost use Rattle.std.specs.Prelude.{◌≡◌, MatchResult};

use super::{Answer, Left};
use refusals::Refusal;

// What is shown of the value of an accepted call, or the check that said no.
pub fn answer_of<T, F: FnOnce(T) -> Answer>(given: Result<T, Refusal>, shown: F) -> Answer
where
    F: Drop,
    requires { F.IsAlwaysCallable shown }
    ensures { MatchResult given (λ value. F.post shown value result) (λ refusal. result ≡ Answer.Refused refusal) }
{
    match given {
        Ok(value) => shown(value),
        Err(refusal) => Answer::Refused(refusal),
    }
}

// What an accepted call leaves and answers by its value; refused, what was kept stays.
pub fn left_with<T: Copy, V, F: FnOnce(V) -> Left<T>>(
    kept: T,
    given: Result<V, Refusal>,
    accepted: F,
) -> Left<T>
where
    F: Drop,
    requires { F.IsAlwaysCallable accepted }
    ensures { MatchResult given (λ value. F.post accepted value result) (λ refusal. result ≡ record { left = kept; answer = Answer.Refused refusal }) }
{
    match given {
        Ok(value) => accepted(value),
        Err(refusal) => Left {
            left: kept,
            answer: Answer::Refused(refusal),
        },
    }
}

impl<T> Left<T> {
    // The same answer, with what is kept as a part of something else.
    pub fn map<U, F: FnOnce(T) -> U>(self, whole: F) -> Left<U>
    where
        F: Drop,
        requires { F.IsAlwaysCallable whole }
        ensures { F.post whole self.left result.left × result.answer ≡ self.answer }
    {
        Left {
            left: whole(self.left),
            answer: self.answer,
        }
    }
}
