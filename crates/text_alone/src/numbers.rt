// Milliseconds, samples, needs, and the block clock.
use policy::{DelayPolicy, share_of};
use text_answers::Answer;
use text_answers::inner::answer_of;
use text_requests::{NeedAsked, NumberCall};

// A share that check 4 refuses.
const NO_SHARE: f64 = -1.0;

// A policy's share of a percent, which is asked itself. One that is not from 0 to 1,000 gives a share that check 4 refuses: the call makes
// that check in its own order.
pub(crate) fn share(percent: f64) -> f64 {
    share_of(percent).unwrap_or(NO_SHARE)
}

fn need(asked: NeedAsked) -> Answer {
    let policy = DelayPolicy {
        read_offset: asked.offset,
        delay_max: asked.most,
        hold: 0,
        window: 0,
        margin: asked.margin,
        margin_share: share(asked.percent),
    };
    answer_of(policy.need_of(asked.lag), |delay| {
        Answer::Number(u64::from(delay))
    })
}

pub(crate) fn answer(call: NumberCall) -> Answer {
    match call {
        NumberCall::Ms(n) => Answer::Double(doubles::ms(n)),
        NumberCall::Samples(m) => Answer::Number(u64::from(doubles::samples(m))),
        NumberCall::Need(asked) => need(asked),
        NumberCall::IndexAt(time) => answer_of(
            timing::index_at(time),
            |index| Answer::Number(index),
        ),
        NumberCall::TimeOf(index) => answer_of(timing::time_of(index), |time| Answer::Number(time)),
    }
}
