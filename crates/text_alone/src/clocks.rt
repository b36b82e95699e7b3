// `Coalesce`, and the schedule of the Query API.
use refusals::Refusal;
use sources::Schedule;
use state::{Coalesce, Taken};
use text_answers::inner::{answer_of, left_with};
use text_answers::{Answer, Left};
use text_requests::{CoalesceCall, ScheduleCall};

// ---- Coalesce
fn taken(kept: Coalesce, given: Result<Taken, Refusal>) -> Left<Coalesce> {
    left_with(kept, given, |taken| {
        let left = taken.coalesce;
        Left {
            left,
            answer: Answer::Taken(taken.write, left.due),
        }
    })
}

pub(crate) fn coalesce(call: CoalesceCall, kept: Coalesce) -> Left<Coalesce> {
    match call {
        CoalesceCall::CoalesceSet(due) => Left {
            left: Coalesce { due },
            answer: Answer::Done,
        },
        CoalesceCall::Changed(asked) => left_with(
            kept,
            kept.changed(asked.time, asked.delay),
            |left| Left {
                left,
                answer: Answer::Due(left.due),
            },
        ),
        CoalesceCall::Pending => Left {
            left: kept,
            answer: answer_of(kept.pending(), |bit| Answer::Bit(bit)),
        },
        CoalesceCall::Take => taken(kept, kept.take()),
        CoalesceCall::TakeDue(time) => taken(kept, kept.take_due(time)),
    }
}

// ---- the schedule
fn failed(kept: Schedule, time: u64) -> Left<Schedule> {
    left_with(kept, kept.query_failed(time), |failed| {
        let left = failed.schedule;
        Left {
            left,
            answer: Answer::Failed(failed.wait, left.query_down),
        }
    })
}

pub(crate) fn schedule(call: ScheduleCall, kept: Schedule) -> Left<Schedule> {
    match call {
        ScheduleCall::QuerySet(query_down) => Left {
            left: Schedule { query_down },
            answer: Answer::Done,
        },
        ScheduleCall::QueryUp(time) => Left {
            left: kept,
            answer: answer_of(kept.query_up(time), |bit| Answer::Bit(bit)),
        },
        ScheduleCall::QueryFailed(time) => failed(kept, time),
    }
}
