// An answer as a line of the text protocol (compare/README.md): `bad line`, `refused` or `ok`, the answer's words, and the window, the hold or
// the record that it shows. An answer more is an arm of `show_words`, and where it shows a list an arm of `show`.
#![tactic(auto)]

use delay_hold::DelayHold;
use lag_window::LagWindow;
use rules_record::Inputs;
use std::io::Write;
use std::ops::Range;
use text_answers::Answer;
use text_lending::Places;
use text_lines::Output;
use words::{Word, put_words};

mod files;
mod holds;
mod record;
mod status;
mod tables;
mod windows;
mod words;

// ---- the words of an answer
// What a line begins with, and the words.
fn show_words<W: Write>(output: &mut Output<'_, W>, answer: Answer) {
    output.room();
    match answer {
        Answer::BadLine => output.printer.put_text(b"bad line"),
        Answer::Refused(_) => output.printer.put_text(b"refused"),
        _ => output.printer.put_text(b"ok"),
    }
    match answer {
        Answer::Refused(refusal) => put_words(output, &[refusal.number().into()]),
        Answer::Number(value) => put_words(output, &[value.into()]),
        Answer::Delays(n) | Answer::File(n) => put_words(output, &[n.into()]),
        Answer::Maybe(lag) | Answer::Next(lag) => put_words(output, &[lag.into()]),
        Answer::Double(x) => put_words(output, &[x.into()]),
        Answer::Bit(bit) | Answer::Ticked(bit) => put_words(output, &[bit.into()]),
        Answer::Dry => put_words(output, &[Word::Number(0)]),
        Answer::Due(due) => put_words(output, &[due.into()]),
        Answer::Taken(bit, due) => put_words(output, &[bit.into(), due.into()]),
        Answer::Failed(wait, down) => put_words(output, &[wait.into(), down.into()]),
        _ => {}
    }
}

// ---- the record that an answer shows
// Whether all of it, how many commands at most, and which inputs.
#[derive(Drop)]
struct Part {
    full: bool,
    commands: usize,
    inputs: Range<usize>,
}

impl Part {
    // A call sends at most four commands an input; `dump` and a dry tick send none.
    fn new(answer: Answer, full: bool, count: usize) -> Part {
        let all = Part {
            full,
            commands: count.saturating_mul(4),
            inputs: 0..count,
        };
        match answer {
            Answer::Input(i) => Part {
                inputs: i..i.saturating_add(1),
                ..all
            },
            Answer::Dump => Part {
                full: true,
                commands: 0,
                ..all
            },
            Answer::Dry => Part { commands: 0, ..all },
            _ => all,
        }
    }
}

// The lists that an answer shows, to be read.
#[derive(Clone, Copy)]
pub struct ShownLists<'a> {
    pub starts: &'a [u64],
    pub totals: &'a [u64],
    pub counts: &'a [u32],
    pub times: &'a [u64],
    pub peaks: &'a [u32],
    pub commands: &'a [u32],
    pub bytes: &'a [u8],
    pub heard: &'a [u32],
}

// Puts the answer's line out. A supervisor has so many buckets a second; the window and the hold alone have the lists' last places. The flows of a
// delay file, or the file itself, are `bytes` of the lists, and its delays the first of `heard`.
pub fn show<W: Write>(
    output: &mut Output<'_, W>,
    answer: Answer,
    full: bool,
    inputs: Inputs,
    buckets: usize,
    window: LagWindow,
    hold: DelayHold,
    lists: ShownLists<'_>,
) {
    show_words(output, answer);
    match answer {
        Answer::Status(status) => status::show(output, status),
        Answer::Delays(n) => files::show_delays(output, n, lists.bytes, lists.heard),
        Answer::File(n) => files::show_file(output, n, lists.bytes),
        Answer::Window => windows::show(output, true, window, Places::LONE, &lists),
        Answer::Next(_) => holds::show(output, true, hold, Places::LONE, &lists),
        Answer::Input(_) | Answer::All | Answer::Ticked(_) | Answer::Dump | Answer::Dry => {
            let part = Part::new(answer, full, inputs.count);
            record::show(output, part, inputs, buckets, &lists);
        }
        _ => {}
    }
    output.printer.put_byte(b'\n');
}
