// A window alone, over four lists.
use lag_window::LagWindow;
use rules_window::WindowLists;
use text_answers::inner::{answer_of, left_with};
use text_answers::{Answer, Left, left_by};
use text_requests::{WindowAsked, WindowCall};

// A refused `new` leaves the window that was there.
fn new(kept: LagWindow, asked: WindowAsked, lists: &mut WindowLists<'_>) -> Left<LagWindow> {
    let given = LagWindow::new(asked.offset, asked.most, asked.width, lists);
    left_with(
        kept,
        given,
        |left| Left {
            left,
            answer: Answer::Number(left.buckets as u64),
        },
    )
}

pub(crate) fn answer(
    call: WindowCall,
    kept: LagWindow,
    lists: &mut WindowLists<'_>,
) -> Left<LagWindow> {
    match call {
        WindowCall::WindowNew(asked) => new(kept, asked, lists),
        WindowCall::Push(asked) => left_by(
            kept,
            kept.push(asked.lag, asked.time, lists),
            Answer::Window,
        ),
        WindowCall::Clear => left_by(kept, kept.clear(lists), Answer::Done),
        WindowCall::Span => Left {
            left: kept,
            answer: answer_of(kept.span(lists.view()), |span| Answer::Number(span)),
        },
        WindowCall::Quantile(asked) => Left {
            left: kept,
            answer: answer_of(
                kept.quantile_upto(asked.q, asked.limit, lists.view()),
                |end| Answer::Maybe(end),
            ),
        },
    }
}
