// The status of one input.
use crate::words::put_words;
use rules_calls::InputStatus;
use std::io::Write;
use text_lines::Output;

pub(crate) fn show<W: Write>(output: &mut Output<'_, W>, status: InputStatus) {
    let arrival = status.arrival_lag_ms;
    put_words(
        output,
        &[
            u32::from(status.state).into(),
            status.source.into(),
            status.channels.into(),
            status.extra_delay.into(),
            status.extra_delay_ms.into(),
            status.effective_delay_ms.into(),
            status.proposed_delay_ms.into(),
            status.lag_ms.into(),
            arrival.map(|lag| lag.p50).into(),
            arrival.map(|lag| lag.p99).into(),
            arrival.map(|lag| lag.p999).into(),
            status.worst_lag_ms.into(),
            status.delay_changes.into(),
            status.late_events.into(),
            status.reopens.into(),
        ],
    );
}
