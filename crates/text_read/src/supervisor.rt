// The lines of the calls on a supervisor (compare/README.md): each is its name and its words, read from where the reader stands. None where the
// name is another, or a word is missing or of another form.
ghost use Rattle.std.specs.Prelude.{◌≡◌, length};
ghost use Rattle.text_words.specs.Words.{read_as};
ghost use Rattle.text_read.specs.Supervisor.{settings_at, new_line, source_at, wanted_at, route_line, desk_at, scored_at, setting_at, update_line, time_at, confirm_line, settled_line, tick_name, tick_said, tick_line, status_line, has_line, window_part, hold_part, counters_part, delays_part, sum_part, put_line, change_lines, ask_lines, call_line};

use rules_calls::{DelaySetting, Settings, Source};
use rules_record::ExtraDelay;
use rules_routing::World;
use rules_tick::Look;
use text_print::bits::double;
use text_read_alone::{bare, hold_at, sum_at};
use text_requests::lists::{Load, MOST_LOADS, lags_at, pass, rows_at};
use text_requests::parts::{flow_of, setting_of};
use text_requests::{
    Ask, Call, Change, CountersAsked, DelaysAsked, HasAsked, Known, NewAsked, Part, PutAsked,
    RouteAsked, RowsAsked, StatusAsked, TickAsked, TimeAsked, UpdateAsked,
};
use text_scan::Word;
use text_words::Reader;

// ---- new
#[tactic(auto, unfolding(crate::specs::Supervisor::settings_at))]
fn settings_at(r: &mut Reader<'_>) -> Option<Settings>
    ensures read { read_as r.new.at result ≡ settings_at r.old.s.now r.old.at }
    ensures same { r.new.s.now ≡ r.old.s.now }
{
    Some(Settings {
        count: r.u32(b' ')? as usize,
        read_offset: r.u32(b' ')?,
        delay_max: r.u32(b' ')?,
        width: r.u32(b' ')?,
        hold: r.u64(b' ')?,
        window: r.u64(b' ')?,
        stall: r.u64(b' ')?,
        margin: r.u32(b' ')?,
        percent: double(r.hex(b' ')?),
        confirm: r.bit(b' ')?,
    })
}

#[tactic(auto, unfolding(crate::specs::Supervisor::new_line, text_requests::specs::Lists::kinds_end, text_requests::specs::Lists::loads_end))]
fn new(mut r: Reader<'_>) -> Option<Word<Call>>
    ensures { result ≡ new_line r.entry.s.now r.entry.at }
{
    r.word(b"new")?;
    let time = r.u64(b' ')?;
    let settings = settings_at(&mut r)?;
    let kinds = r.at;
    pass::<ExtraDelay>(&mut r, settings.count)?;
    let loaded = r.u32(b' ')? as usize;
    let loads = r.at;
    pass::<Load>(&mut r, loaded)?;
    if MOST_LOADS < loaded {
        return None;
    }
    let asked = NewAsked {
        time,
        settings,
        kinds,
        loads,
        loaded,
    };
    Some(r.found(Call::Change(Change::New(asked))))
}

// ---- route
#[tactic(auto, unfolding(crate::specs::Supervisor::source_at))]
fn source_at(r: &mut Reader<'_>) -> Option<Source>
    ensures read { read_as r.new.at result ≡ source_at r.old.s.now r.old.at }
    ensures same { r.new.s.now ≡ r.old.s.now }
{
    let flow = flow_of(r.flow(b' ')?);
    Some(Source {
        domain: r.u64(b'/')?,
        flow,
    })
}

// A flow with its domain, or none.
#[tactic(auto, unfolding(crate::specs::Supervisor::wanted_at, text_words::specs::Words::or_none))]
fn wanted_at(r: &mut Reader<'_>) -> Option<Option<Source>>
    ensures read { read_as r.new.at result ≡ wanted_at r.old.s.now r.old.at }
    ensures same { r.new.s.now ≡ r.old.s.now }
{
    if !r.mark(b' ', b'-') {
        return Some(Some(source_at(r)?));
    }
    Some(None)
}

#[tactic(auto, unfolding(crate::specs::Supervisor::route_line))]
fn route(mut r: Reader<'_>) -> Option<Word<Call>>
    ensures { result ≡ route_line r.entry.s.now r.entry.at }
{
    r.word(b"route")?;
    let time = r.u64(b' ')?;
    let input = r.u64(b' ')? as usize;
    let wanted = wanted_at(&mut r)?;
    let world = World {
        inode: r.maybe_u64(b' ')?,
        made: r.bit(b' ')?,
        reader: r.maybe_u32(b' ')?,
        head: r.u64(b' ')?,
    };
    let asked = RouteAsked {
        time,
        input,
        wanted,
        world,
    };
    Some(r.found(Call::Change(Change::Route(asked))))
}

// ---- update, confirm, settled
// `D` and the bits of a double: a manual delay that the desk sends.
#[tactic(auto, unfolding(crate::specs::Supervisor::desk_at))]
fn desk_at(mut r: Reader<'_>) -> Option<Word<DelaySetting>>
    ensures { result ≡ desk_at r.entry.s.now r.entry.at }
{
    r.text(b" ")?;
    let bits = r.hex(b'D')?;
    Some(r.found(DelaySetting::Desk(double(bits))))
}

// A kind, which the scoring program sends.
#[tactic(auto, unfolding(crate::specs::Supervisor::scored_at))]
fn scored_at(mut r: Reader<'_>) -> Option<Word<DelaySetting>>
    ensures { result ≡ scored_at r.entry.s.now r.entry.at }
{
    let kind = r.kind(b' ')?;
    Some(r.found(setting_of(kind)))
}

#[tactic(auto, unfolding(crate::specs::Supervisor::setting_at))]
fn setting_at(r: &mut Reader<'_>) -> Option<DelaySetting>
    ensures read { read_as r.new.at result ≡ setting_at r.old.s.now r.old.at }
    ensures same { r.new.s.now ≡ r.old.s.now }
{
    let w = desk_at(*r).or(scored_at(*r))?;
    r.at = w.next;
    Some(w.value)
}

#[tactic(auto, unfolding(crate::specs::Supervisor::update_line))]
fn update(mut r: Reader<'_>) -> Option<Word<Call>>
    ensures { result ≡ update_line r.entry.s.now r.entry.at }
{
    r.word(b"update")?;
    let asked = UpdateAsked {
        time: r.u64(b' ')?,
        input: r.u64(b' ')? as usize,
        setting: setting_at(&mut r)?,
    };
    Some(r.found(Call::Change(Change::Update(asked))))
}

#[tactic(auto, unfolding(crate::specs::Supervisor::time_at))]
fn time_at(r: &mut Reader<'_>) -> Option<TimeAsked>
    ensures read { read_as r.new.at result ≡ time_at r.old.s.now r.old.at }
    ensures same { r.new.s.now ≡ r.old.s.now }
{
    Some(TimeAsked {
        time: r.u64(b' ')?,
        input: r.u64(b' ')? as usize,
    })
}

#[tactic(auto, unfolding(crate::specs::Supervisor::confirm_line))]
fn confirm(mut r: Reader<'_>) -> Option<Word<Call>>
    ensures { result ≡ confirm_line r.entry.s.now r.entry.at }
{
    r.word(b"confirm")?;
    let asked = time_at(&mut r)?;
    Some(r.found(Call::Change(Change::Confirm(asked))))
}

#[tactic(auto, unfolding(crate::specs::Supervisor::settled_line))]
fn settled(mut r: Reader<'_>) -> Option<Word<Call>>
    ensures { result ≡ settled_line r.entry.s.now r.entry.at }
{
    r.word(b"settled")?;
    let asked = time_at(&mut r)?;
    Some(r.found(Call::Ask(Ask::Settled(asked))))
}

// ---- tick
// Is it a dry one?
#[tactic(auto, unfolding(crate::specs::Supervisor::tick_name))]
fn tick_name(r: &mut Reader<'_>) -> Option<bool>
    ensures read { read_as r.new.at result ≡ tick_name r.old.s.now r.old.at }
    ensures same { r.new.s.now ≡ r.old.s.now }
{
    let mut dry = *r;
    if let Some(()) = r.word(b"tick") {
        return Some(false);
    }
    dry.word(b"dry tick")?;
    *r = dry;
    Some(true)
}

// Of a supervisor that was made. The lags go to `heard`.
#[tactic(auto, unfolding(crate::specs::Supervisor::tick_line, text_requests::specs::Lists::looks_end))]
pub(crate) fn tick(mut r: Reader<'_>, inputs: usize, heard: &mut [u32]) -> Option<Word<Call>>
    ensures { tick_said result heard.new ≡ tick_line r.entry.s.now r.entry.at inputs (length heard.old) }
{
    let dry = tick_name(&mut r)?;
    let time = r.u64(b' ')?;
    let looks = r.at;
    pass::<Look>(&mut r, inputs)?;
    let lags = lags_at(&mut r, heard)?;
    if inputs == 0 {
        return None;
    }
    let asked = TickAsked {
        dry,
        time,
        looks,
        lags,
    };
    Some(r.found(Call::Change(Change::Tick(asked))))
}

// ---- status, has
#[tactic(auto, unfolding(crate::specs::Supervisor::status_line))]
fn status(mut r: Reader<'_>) -> Option<Word<Call>>
    ensures { result ≡ status_line r.entry.s.now r.entry.at }
{
    r.word(b"status")?;
    let asked = StatusAsked {
        input: r.u64(b' ')? as usize,
        applied: r.u32(b' ')?,
        channels: r.u32(b' ')?,
    };
    Some(r.found(Call::Ask(Ask::Status(asked))))
}

#[tactic(auto, unfolding(crate::specs::Supervisor::has_line))]
fn has(mut r: Reader<'_>) -> Option<Word<Call>>
    ensures { result ≡ has_line r.entry.s.now r.entry.at }
{
    r.word(b"has")?;
    let asked = HasAsked {
        input: r.u64(b' ')? as usize,
        channels: r.u32(b' ')?,
        wanted: r.u32(b' ')?,
    };
    Some(r.found(Call::Ask(Ask::Has(asked))))
}

// ---- put
#[tactic(auto, unfolding(crate::specs::Supervisor::window_part))]
fn window(mut r: Reader<'_>, buckets: usize) -> Option<Word<Part>>
    ensures { result ≡ window_part r.entry.s.now r.entry.at buckets }
{
    r.word(b" window")?;
    let asked = RowsAsked {
        at: r.at,
        seconds: rows_at(&mut r, buckets)?,
    };
    Some(r.found(Part::Window(asked)))
}

#[tactic(auto, unfolding(crate::specs::Supervisor::hold_part))]
fn hold(mut r: Reader<'_>) -> Option<Word<Part>>
    ensures { result ≡ hold_part r.entry.s.now r.entry.at }
{
    r.word(b" hold")?;
    let asked = hold_at(&mut r)?;
    Some(r.found(Part::Hold(asked)))
}

#[tactic(auto, unfolding(crate::specs::Supervisor::counters_part))]
fn counters(mut r: Reader<'_>) -> Option<Word<Part>>
    ensures { result ≡ counters_part r.entry.s.now r.entry.at }
{
    r.word(b" counters")?;
    let asked = CountersAsked {
        reopens: r.u64(b' ')?,
        delay_changes: r.u64(b' ')?,
        late_events: r.u64(b' ')?,
    };
    Some(r.found(Part::Counters(asked)))
}

#[tactic(auto, unfolding(crate::specs::Supervisor::delays_part))]
fn delays(mut r: Reader<'_>) -> Option<Word<Part>>
    ensures { result ≡ delays_part r.entry.s.now r.entry.at }
{
    r.word(b" delays")?;
    let asked = DelaysAsked {
        delay: r.u32(b' ')?,
        proposed: r.maybe_u32(b' ')?,
    };
    Some(r.found(Part::Delays(asked)))
}

#[tactic(auto, unfolding(crate::specs::Supervisor::sum_part))]
fn sum(mut r: Reader<'_>, buckets: usize) -> Option<Word<Part>>
    ensures { result ≡ sum_part r.entry.s.now r.entry.at buckets }
{
    r.word(b" sum")?;
    let asked = sum_at(&mut r, buckets)?;
    Some(r.found(Part::Sum(asked)))
}

// Of an input that exists.
#[tactic(auto, unfolding(crate::specs::Supervisor::put_line))]
fn put(mut r: Reader<'_>, inputs: usize, buckets: usize) -> Option<Word<Call>>
    ensures { result ≡ put_line r.entry.s.now r.entry.at inputs buckets }
{
    r.word(b"put")?;
    let input = r.u64(b' ')? as usize;
    let part = window(r, buckets)
        .or(hold(r))
        .or(counters(r))
        .or(delays(r))
        .or(sum(r, buckets))?;
    if inputs <= input {
        return None;
    }
    let asked = PutAsked {
        input,
        part: part.value,
    };
    Some(Word {
        value: Call::Put(asked),
        next: part.next,
    })
}

// ---- all but a tick, in groups: each form is read, as in text_read_alone
#[tactic(auto, unfolding(crate::specs::Supervisor::change_lines))]
fn change_lines(r: Reader<'_>) -> Option<Word<Call>>
    ensures { result ≡ change_lines r.entry.s.now r.entry.at }
{
    route(r).or(update(r)).or(confirm(r))
}

#[tactic(auto, unfolding(crate::specs::Supervisor::ask_lines))]
fn ask_lines(r: Reader<'_>) -> Option<Word<Call>>
    ensures { result ≡ ask_lines r.entry.s.now r.entry.at }
{
    status(r)
        .or(has(r))
        .or(settled(r))
        .or(bare(r, b"dump", Call::Ask(Ask::Dump)))
        .or(bare(r, b"dwrite1", Call::Ask(Ask::WriteDelays)))
}

// The line that stands at this place, of the calls on a supervisor; before the first `new` there is no other.
#[tactic(auto, unfolding(crate::specs::Supervisor::call_line))]
pub(crate) fn call_at(r: Reader<'_>, known: Known) -> Option<Word<Call>>
    ensures { result ≡ call_line r.entry.s.now r.entry.at known }
{
    let first = new(r);
    if known.inputs == 0 {
        return first;
    }
    first
        .or(change_lines(r))
        .or(ask_lines(r))
        .or(put(r, known.inputs, known.buckets))
}
