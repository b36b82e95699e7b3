// What a request is answered, by value (compare/README.md, "The protocol"). Where an answer shows a window, a hold or a record, it says which
// part of what is kept is shown.
#![tactic(auto)]

ghost use Rattle.std.specs.Prelude.{◌≡◌, MatchResult};

use refusals::Refusal;
use rules_calls::InputStatus;
use sources::Down;

// Functions that ask something of their caller.
pub mod inner;

#[derive(Clone, Copy)]
pub enum Answer {
    BadLine,
    // The check that said no.
    Refused(Refusal),
    // Accepted, and nothing follows.
    Done,
    Number(u64),
    // A number, or none.
    Maybe(Option<u32>),
    // A double.
    Double(f64),
    Bit(bool),
    Due(Option<u64>),
    Taken(bool, Option<u64>),
    Failed(u64, Option<Down>),
    Status(InputStatus),
    // How many flows a delay file has, and each of them with its delay.
    Delays(usize),
    // How long the delay file is that was written, and its bytes.
    File(usize),
    // The window alone, whole.
    Window,
    // The delay that `next` changes to, or none, and the hold alone, whole.
    Next(Option<u32>),
    // The record of this input.
    Input(usize),
    // The record of all inputs.
    All,
    // Whether the table was unsaved, and the record of all inputs.
    Ticked(bool),
    // The record as it stands, with no commands, whole.
    Dump,
    // The same as it is set, after a tick that was read and not made.
    Dry,
}

// What a call leaves of what is kept, and its answer.
#[derive(Clone, Copy)]
pub struct Left<T> {
    pub left: T,
    pub answer: Answer,
}

// The answer to a call that leaves a new value, and what is kept after it: refused, what was kept stays.
pub fn left_by<T: Copy>(kept: T, given: Result<T, Refusal>, answer: Answer) -> Left<T>
    ensures { MatchResult given (λ value. result ≡ record { left = value; answer = answer }) (λ refusal. result ≡ record { left = kept; answer = Answer.Refused refusal }) }
{
    inner::left_with(kept, given, |left| Left { left, answer })
}
