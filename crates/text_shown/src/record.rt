// The record of a supervisor: the commands, the tables and the inputs.
use crate::words::{Word, put_words};
use crate::{Part, ShownLists, holds, tables, windows};
use inputs_flows::flow_at;
use lag_window::LagWindow;
use rules_record::{Inputs, Route, Slot};
use std::io::Write;
use text_lending::Places;
use text_lines::Output;

// ---- the commands
// ` C`, and of the first n commands each that was sent, in sending order. Document 01 numbers the kinds, and leaves unused words 0.
fn show_commands<W: Write>(output: &mut Output<'_, W>, n: usize, commands: &[u32]) {
    Word::Mark(b'C').put(output);
    for command in commands.chunks_exact(3).take(n) {
        if let [kind, input, word] = command {
            if *kind != 0 {
                Word::Command(*kind, *input, *word).put(output);
            }
        }
    }
}

// ---- one input
fn route(inputs: Inputs, to: Option<Route>) -> Word {
    match to {
        Some(route) => Word::Flow(flow_at(inputs, route.flow), b'/', route.domain),
        None => Word::None,
    }
}

// Where an input reads from, and its numbers.
fn numbers(inputs: Inputs, i: usize, slot: Slot) -> [Word; 14] {
    let config = slot.config;
    [
        Word::Head(b'|', i as u64),
        u32::from(slot.state).into(),
        config.extra_delay.into(),
        route(inputs, slot.route),
        slot.inode.into(),
        slot.last_head.into(),
        slot.head_changed.into(),
        slot.reopens.into(),
        slot.last_lag.into(),
        slot.delay.into(),
        slot.proposed.into(),
        slot.delay_changes.into(),
        slot.late_events.into(),
        slot.late_before.into(),
    ]
}

// Input i, with so many buckets a second: its parts of the lists begin at its own places.
fn show_input<W: Write>(
    output: &mut Output<'_, W>,
    full: bool,
    inputs: Inputs,
    i: usize,
    buckets: usize,
    lists: &ShownLists<'_>,
) {
    let slot = inputs_slots::slot_at(inputs, i);
    put_words(output, &numbers(inputs, i, slot));
    let places = Places::of(i, buckets);
    holds::show(output, full, slot.hold, places, lists);
    let window = LagWindow {
        seconds: slot.lag_seconds,
        buckets,
        width: inputs.width,
    };
    windows::show(output, full, window, places, lists);
}

// The commands, the tables, and the inputs of the part.
pub(crate) fn show<W: Write>(
    output: &mut Output<'_, W>,
    part: Part,
    inputs: Inputs,
    buckets: usize,
    lists: &ShownLists<'_>,
) {
    let full = part.full;
    show_commands(output, part.commands, lists.commands);
    tables::show(output, full, inputs);
    for i in part.inputs {
        show_input(output, full, inputs, i, buckets, lists);
    }
}
