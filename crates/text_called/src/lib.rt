// The calls on a supervisor: each is answered by value (compare/README.md, "The protocol"), on lists of the lengths that it asks for. A refused
// call leaves the record that was there.
#![tactic(auto)]

use policy::DelayPolicy;
use rules_record::{AllLists, AllView, Inputs};
use text_answers::inner::{answer_of, left_with};
use text_answers::{Answer, Left, left_by};
use text_lending::{file_sizes, first, sizes_for};
use text_requests::lists::{kinds_at, looks_at};
use text_requests::{Ask, Call, Change};

// The bytes of a flow.
const FLOW_BYTES: usize = 16;

// Before the first `new`: a record of no inputs.
pub fn begin() -> Inputs {
    let policy = DelayPolicy {
        read_offset: 0,
        delay_max: 0,
        hold: 0,
        window: 0,
        margin: 0,
        margin_share: 0.0,
    };
    inputs_new::blank(0, policy, 0, 0, false)
}

// The calls that change the record, on lists of the lengths that they ask for.
fn changing(
    call: Change,
    kept: Inputs,
    s: &[u8],
    flows: &[u8],
    heard: &[u32],
    lists: &mut AllLists<'_>,
    commands: &mut [u32],
) -> Left<Inputs> {
    match call {
        Change::New(asked) => {
            let settings = asked.settings;
            let bytes = asked.loaded.saturating_mul(FLOW_BYTES);
            left_by(
                kept,
                inputs_new::new(
                    settings,
                    kinds_at(s, asked.kinds, settings.count),
                    first(flows, bytes),
                    first(heard, asked.loaded),
                    asked.time,
                    lists,
                    commands,
                ),
                Answer::All,
            )
        }
        Change::Route(asked) => {
            let wanted = asked.wanted;
            let world = asked.world;
            left_by(
                kept,
                inputs_route::route(
                    kept,
                    asked.input,
                    wanted,
                    asked.time,
                    world,
                    lists,
                    commands,
                ),
                Answer::Input(asked.input),
            )
        }
        Change::Update(asked) => {
            let setting = asked.setting;
            left_by(
                kept,
                inputs_update::update(kept, asked.input, setting, asked.time, lists, commands),
                Answer::Input(asked.input),
            )
        }
        Change::Confirm(asked) => left_by(
            kept,
            inputs_update::confirm_delay(kept, asked.input, asked.time, lists.view(), commands),
            Answer::Input(asked.input),
        ),
        Change::Tick(asked) => {
            let looks = looks_at(s, asked.looks, kept.count);
            let lags = first(heard, asked.lags);
            let given = inputs_tick::tick(kept, looks, lags, asked.time, lists, commands);
            left_with(
                kept,
                given,
                |ticked| Left {
                    left: ticked.inputs,
                    answer: Answer::Ticked(ticked.unsaved),
                },
            )
        }
    }
}

// The calls that change nothing of the record. A delay file goes to `file`.
fn asking(call: Ask, kept: Inputs, lists: AllView<'_>, file: &mut [u8]) -> Answer {
    match call {
        Ask::Status(asked) => {
            answer_of(
                inputs_status::status(kept, asked.input, asked.applied, asked.channels, lists),
                |status| Answer::Status(status),
            )
        }
        Ask::Has(asked) => {
            answer_of(
                inputs_status::has_channels(
                    kept,
                    asked.input,
                    asked.channels,
                    asked.wanted as usize,
                    lists,
                ),
                |bit| Answer::Bit(bit),
            )
        }
        Ask::Settled(asked) => {
            answer_of(
                inputs_status::settled(kept, asked.input, asked.time, lists),
                |bit| Answer::Bit(bit),
            )
        }
        Ask::WriteDelays => {
            answer_of(
                delay_files::write_delays(kept, lists, file),
                |length| Answer::File(length),
            )
        }
        Ask::Dump => Answer::Dump,
    }
}

// The calls that change the record, on parts of lists. They come singly: a part that goes straight into a struct is not followed.
fn changing_own(
    call: Change,
    kept: Inputs,
    s: &[u8],
    flows: &[u8],
    heard: &[u32],
    starts: &mut [u64],
    totals: &mut [u64],
    counts: &mut [u32],
    sums: &mut [u64],
    times: &mut [u64],
    peaks: &mut [u32],
    commands: &mut [u32],
) -> Left<Inputs> {
    let mut own = AllLists {
        starts,
        totals,
        counts,
        sums,
        times,
        peaks,
    };
    changing(call, kept, s, flows, heard, &mut own, commands)
}

// A call that changes the record, lent as much of each list as it asks for. Its lists of the line are read here; the delays that `new` loads, and
// the lags of a tick, are the first of `heard`, and the flows of those delays the first bytes of `flows`.
pub fn change(
    call: Change,
    kept: Inputs,
    short: bool,
    s: &[u8],
    flows: &[u8],
    heard: &[u32],
    lists: &mut AllLists<'_>,
    commands: &mut [u32],
) -> Left<Inputs> {
    let sizes = sizes_for(Call::Change(call), kept, short);
    let seen = lists.view();
    let a = sizes.seconds.min(seen.starts.len());
    let b = sizes.seconds.min(seen.totals.len());
    let c = sizes.counts.min(seen.counts.len());
    let d = sizes.sums.min(seen.sums.len());
    let e = sizes.peaks.min(seen.times.len());
    let f = sizes.peaks.min(seen.peaks.len());
    let words = sizes.words.min(commands.len());
    changing_own(
        call,
        kept,
        s,
        flows,
        heard,
        &mut lists.starts[0..a],
        &mut lists.totals[0..b],
        &mut lists.counts[0..c],
        &mut lists.sums[0..d],
        &mut lists.times[0..e],
        &mut lists.peaks[0..f],
        &mut commands[0..words],
    )
}

// A call that changes nothing of the record, shown as much of each list as it asks for. A delay file goes to `file`.
pub fn ask(call: Ask, kept: Inputs, short: bool, lists: AllView<'_>, file: &mut [u8]) -> Answer {
    let sizes = sizes_for(Call::Ask(call), kept, short);
    let files = file_sizes(short);
    let seen = AllView {
        starts: first(lists.starts, sizes.seconds),
        totals: first(lists.totals, sizes.seconds),
        counts: first(lists.counts, sizes.counts),
        sums: first(lists.sums, sizes.sums),
        times: first(lists.times, sizes.peaks),
        peaks: first(lists.peaks, sizes.peaks),
    };
    let length = files.file.min(file.len());
    asking(call, kept, seen, &mut file[0..length])
}
