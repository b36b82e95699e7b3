// A hold alone, over two lists.
use crate::numbers::share;
use delay_hold::{DelayHold, HoldLists};
use policy::DelayPolicy;
use text_answers::inner::left_with;
use text_answers::{Answer, Left, left_by};
use text_requests::{HoldCall, NextAsked};

// A refusal shows no hold.
fn next(kept: DelayHold, asked: NextAsked, lists: &mut HoldLists<'_>) -> Left<DelayHold> {
    let policy = DelayPolicy {
        read_offset: asked.offset,
        delay_max: asked.most,
        hold: asked.hold,
        window: asked.window,
        margin: asked.margin,
        margin_share: share(asked.percent),
    };
    let given = kept.decide_next(
        lists,
        asked.p999,
        asked.largest,
        asked.current,
        policy,
        asked.width,
        asked.time,
    );
    left_with(
        kept,
        given,
        |next| Left {
            left: next.hold,
            answer: Answer::Next(next.change),
        },
    )
}

pub(crate) fn answer(
    call: HoldCall,
    kept: DelayHold,
    lists: &mut HoldLists<'_>,
) -> Left<DelayHold> {
    match call {
        HoldCall::HoldNew => left_by(kept, DelayHold::new(lists), Answer::Done),
        HoldCall::Next(asked) => next(kept, asked, lists),
    }
}
