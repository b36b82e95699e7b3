// A window: its seconds, each with its row. Of a hold (`holds`) other lists and another end each are shown.
use crate::ShownLists;
use crate::words::{Word, put_words};
use lag_window::LagWindow;
use std::io::Write;
use text_lending::Places;
use text_lines::Output;

// The start and the total of second i: past the places that a window has there are zeros.
fn second(i: usize, from: usize, lists: &ShownLists<'_>) -> Word {
    if LagWindow::SECONDS <= i {
        return Word::Two(b' ', 0, b':', 0);
    }
    let at = from.saturating_add(i);
    Word::Two(
        b' ',
        lists.starts.get(at).copied().unwrap_or(0),
        b':',
        lists.totals.get(at).copied().unwrap_or(0),
    )
}

// A row: each bucket that has lags, and how many.
fn show_row<W: Write>(output: &mut Output<'_, W>, buckets: usize, counts: &[u32], first: usize) {
    let from = first.min(counts.len());
    for (bucket, count) in counts[from..].iter().take(buckets).enumerate() {
        if *count != 0 {
            Word::Two(b',', bucket as u64, b'=', *count as u64).put(output);
        }
    }
}

// Past the rows that a window has there is nothing.
fn show_rows<W: Write>(
    output: &mut Output<'_, W>,
    window: LagWindow,
    places: Places,
    lists: &ShownLists<'_>,
) {
    let mut cell = places.counts;
    for i in 0..window.seconds {
        second(i, places.seconds, lists).put(output);
        if i < LagWindow::SECONDS {
            show_row(output, window.buckets, lists.counts, cell);
        }
        cell = cell.saturating_add(window.buckets);
    }
}

// The sum of n totals.
fn total(n: usize, from: usize, totals: &[u64]) -> u64 {
    totals[from.min(totals.len())..]
        .iter()
        .take(n)
        .fold(0, |all: u64, total| all.saturating_add(*total))
}

// The first second of n, the last and how many lags there are in all.
fn ends(n: usize, from: usize, lists: &ShownLists<'_>) -> [Word; 3] {
    if n == 0 {
        return [Word::None, Word::None, Word::Number(0)];
    }
    [
        second(0, from, lists),
        second(n - 1, from, lists),
        total(n.min(LagWindow::SECONDS), from, lists.totals).into(),
    ]
}

// ` L`, how many seconds, and rows or their ends.
pub(crate) fn show<W: Write>(
    output: &mut Output<'_, W>,
    full: bool,
    window: LagWindow,
    places: Places,
    lists: &ShownLists<'_>,
) {
    let n = window.seconds;
    Word::Head(b'L', n as u64).put(output);
    if full {
        show_rows(output, window, places, lists);
    } else {
        put_words(output, &ends(n, places.seconds, lists));
    }
}
