// A hold: its peaks, and its fields from the last change on.
use crate::ShownLists;
use crate::words::{Word, put_words};
use delay_hold::DelayHold;
use std::io::Write;
use text_lending::Places;
use text_lines::Output;

// Peak i: past the places that a hold has there are zeros.
fn peak(i: usize, from: usize, lists: &ShownLists<'_>) -> Word {
    if DelayHold::PLACES <= i {
        return Word::Two(b' ', 0, b':', 0);
    }
    let at = from.saturating_add(i);
    Word::Two(
        b' ',
        lists.times.get(at).copied().unwrap_or(0),
        b':',
        u64::from(lists.peaks.get(at).copied().unwrap_or(0)),
    )
}

// The greatest of n lags. The part is cut: `skip` would pass over the lags before it one by one.
fn greatest(n: usize, from: usize, lags: &[u32]) -> u32 {
    lags[from.min(lags.len())..]
        .iter()
        .take(n)
        .fold(0, |most: u32, lag| most.max(*lag))
}

// The first peak of n, the last and the greatest lag.
fn ends(n: usize, from: usize, lists: &ShownLists<'_>) -> [Word; 3] {
    if n == 0 {
        return [Word::None; 3];
    }
    [
        peak(0, from, lists),
        peak(n - 1, from, lists),
        greatest(n.min(DelayHold::PLACES), from, lists.peaks).into(),
    ]
}

// From the last change on.
fn fields(hold: DelayHold) -> [Word; 6] {
    [
        hold.last_change.into(),
        hold.lower.into(),
        hold.started.into(),
        hold.startup_late.into(),
        hold.late_before.into(),
        hold.seeded.into(),
    ]
}

// ` H`, how many peaks, all of them or their ends, and the fields from the last change on.
pub(crate) fn show<W: Write>(
    output: &mut Output<'_, W>,
    full: bool,
    hold: DelayHold,
    places: Places,
    lists: &ShownLists<'_>,
) {
    let n = hold.peaks;
    Word::Head(b'H', n as u64).put(output);
    if full {
        for i in 0..n {
            peak(i, places.peaks, lists).put(output);
        }
    } else {
        put_words(output, &ends(n, places.peaks, lists));
    }
    put_words(output, &fields(hold));
}
