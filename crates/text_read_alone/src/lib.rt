// The lines of the calls that need no supervisor (compare/README.md): each is its name and its words, read from where the reader stands. None
// where the name is another, or a word is missing or of another form.
#![tactic(auto)]

ghost use Rattle.std.specs.Prelude.{◌≡◌};
ghost use Rattle.text_words.specs.Words.{read_as};
ghost use Rattle.text_read_alone.specs.Alone.{bare_line, hold_at, ms_line, samples_line, need_line, index_at_line, time_of_line, wnew_line, wset_line, sum_at, wsum_line, wpush_line, wquant_line, hset_line, next_line, co_set_line, co_changed_line, co_take_due_line, q_set_line, q_up_line, q_failed_line, dread1_line, number_lines, window_lines, hold_lines, clock_lines, lone_line};

use delay_hold::DelayHold;
use text_files::file_word;
use text_print::bits::double;
use text_requests::lists::{Peak, pass, rows_at};
use text_requests::parts::{MOST_LAG, down_of, seed_of, timer_of};
use text_requests::{
    ChangedAsked, CoalesceCall, HoldAsked, HoldCall, Lone, NeedAsked, NextAsked, NumberCall,
    PushAsked, QuantileAsked, RowsAsked, ScheduleCall, SumAsked, WindowAsked, WindowCall,
};
use text_scan::Word;
use text_words::Reader;

// A line is one definition and one function, as compare/README.md lists them; the lines of a name alone share one.
pub fn bare<T: Copy>(mut r: Reader<'_>, name: &[u8], value: T) -> Option<Word<T>>
    ensures { result ≡ bare_line r.entry.s.now r.entry.at name.now value }
{
    r.word(name)?;
    Some(r.found(value))
}

// ---- numbers

#[tactic(auto, unfolding(crate::specs::Alone::ms_line))]
fn ms(mut r: Reader<'_>) -> Option<Word<Lone>>
    ensures { result ≡ ms_line r.entry.s.now r.entry.at }
{
    r.word(b"ms")?;
    let n = r.u32(b' ')?;
    Some(r.found(Lone::Number(NumberCall::Ms(n))))
}

#[tactic(auto, unfolding(crate::specs::Alone::samples_line))]
fn samples(mut r: Reader<'_>) -> Option<Word<Lone>>
    ensures { result ≡ samples_line r.entry.s.now r.entry.at }
{
    r.word(b"samples")?;
    let ms = double(r.hex(b' ')?);
    Some(r.found(Lone::Number(NumberCall::Samples(ms))))
}

#[tactic(auto, unfolding(crate::specs::Alone::need_line))]
fn need(mut r: Reader<'_>) -> Option<Word<Lone>>
    ensures { result ≡ need_line r.entry.s.now r.entry.at }
{
    r.word(b"need")?;
    let asked = NeedAsked {
        offset: r.u32(b' ')?,
        most: r.u32(b' ')?,
        margin: r.u32(b' ')?,
        percent: double(r.hex(b' ')?),
        lag: r.u32(b' ')?,
    };
    Some(r.found(Lone::Number(NumberCall::Need(asked))))
}

#[tactic(auto, unfolding(crate::specs::Alone::index_at_line))]
fn index_at(mut r: Reader<'_>) -> Option<Word<Lone>>
    ensures { result ≡ index_at_line r.entry.s.now r.entry.at }
{
    r.word(b"index_at")?;
    let time = r.u64(b' ')?;
    Some(r.found(Lone::Number(NumberCall::IndexAt(time))))
}

#[tactic(auto, unfolding(crate::specs::Alone::time_of_line))]
fn time_of(mut r: Reader<'_>) -> Option<Word<Lone>>
    ensures { result ≡ time_of_line r.entry.s.now r.entry.at }
{
    r.word(b"time_of")?;
    let index = r.u64(b' ')?;
    Some(r.found(Lone::Number(NumberCall::TimeOf(index))))
}

// ---- the window

#[tactic(auto, unfolding(crate::specs::Alone::wnew_line))]
fn wnew(mut r: Reader<'_>) -> Option<Word<Lone>>
    ensures { result ≡ wnew_line r.entry.s.now r.entry.at }
{
    r.word(b"wnew")?;
    let asked = WindowAsked {
        offset: r.u32(b' ')?,
        most: r.u32(b' ')?,
        width: r.u32(b' ')?,
    };
    Some(r.found(Lone::Window(WindowCall::WindowNew(asked))))
}

#[tactic(auto, unfolding(crate::specs::Alone::wset_line))]
fn wset(mut r: Reader<'_>, buckets: usize) -> Option<Word<Lone>>
    ensures { result ≡ wset_line r.entry.s.now r.entry.at buckets }
{
    r.word(b"wset")?;
    let asked = RowsAsked {
        at: r.at,
        seconds: rows_at(&mut r, buckets)?,
    };
    Some(r.found(Lone::WindowSet(asked)))
}

// A bucket that exists and its sum.
#[tactic(auto, unfolding(crate::specs::Alone::sum_at))]
pub fn sum_at(r: &mut Reader<'_>, buckets: usize) -> Option<SumAsked>
    ensures read { read_as r.new.at result ≡ sum_at r.old.s.now r.old.at buckets }
    ensures same { r.new.s.now ≡ r.old.s.now }
{
    let bucket = r.u32(b' ')? as usize;
    let sum = r.u64(b' ')?;
    if buckets <= bucket {
        return None;
    }
    Some(SumAsked { bucket, sum })
}

#[tactic(auto, unfolding(crate::specs::Alone::wsum_line))]
fn wsum(mut r: Reader<'_>, buckets: usize) -> Option<Word<Lone>>
    ensures { result ≡ wsum_line r.entry.s.now r.entry.at buckets }
{
    r.word(b"wsum")?;
    let asked = sum_at(&mut r, buckets)?;
    Some(r.found(Lone::WindowSum(asked)))
}

#[tactic(auto, unfolding(crate::specs::Alone::wpush_line))]
fn wpush(mut r: Reader<'_>) -> Option<Word<Lone>>
    ensures { result ≡ wpush_line r.entry.s.now r.entry.at }
{
    r.word(b"wpush")?;
    let asked = PushAsked {
        lag: r.u32(b' ')?,
        time: r.u64(b' ')?,
    };
    Some(r.found(Lone::Window(WindowCall::Push(asked))))
}

#[tactic(auto, unfolding(crate::specs::Alone::wquant_line))]
fn wquant(mut r: Reader<'_>) -> Option<Word<Lone>>
    ensures { result ≡ wquant_line r.entry.s.now r.entry.at }
{
    r.word(b"wquant")?;
    let asked = QuantileAsked {
        q: double(r.hex(b' ')?),
        limit: r.u32(b' ')?,
    };
    Some(r.found(Lone::Window(WindowCall::Quantile(asked))))
}

// ---- the hold

// The fields of a hold.
#[tactic(auto, unfolding(crate::specs::Alone::hold_at, text_requests::specs::Lists::peaks_end))]
pub fn hold_at(r: &mut Reader<'_>) -> Option<HoldAsked>
    ensures read { read_as r.new.at result ≡ hold_at r.old.s.now r.old.at }
    ensures same { r.new.s.now ≡ r.old.s.now }
{
    let n = r.u64(b' ')? as usize;
    let at = r.at;
    pass::<Peak>(r, n)?;
    let hold = DelayHold {
        peaks: n,
        last_change: r.maybe_u64(b' ')?,
        lower: timer_of(r.maybe_pair(b' ', MOST_LAG)?),
        started: r.maybe_u64(b' ')?,
        startup_late: r.u8(b' ')?,
        late_before: r.bit(b' ')?,
        seeded: seed_of(r.maybe_pair(b' ', MOST_LAG)?),
    };
    Some(HoldAsked { at, hold })
}

#[tactic(auto, unfolding(crate::specs::Alone::hset_line))]
fn hset(mut r: Reader<'_>) -> Option<Word<Lone>>
    ensures { result ≡ hset_line r.entry.s.now r.entry.at }
{
    r.word(b"hset")?;
    let asked = hold_at(&mut r)?;
    Some(r.found(Lone::HoldSet(asked)))
}

#[tactic(auto, unfolding(crate::specs::Alone::next_line))]
fn next(mut r: Reader<'_>) -> Option<Word<Lone>>
    ensures { result ≡ next_line r.entry.s.now r.entry.at }
{
    r.word(b"next")?;
    let asked = NextAsked {
        offset: r.u32(b' ')?,
        most: r.u32(b' ')?,
        width: r.u32(b' ')?,
        hold: r.u64(b' ')?,
        window: r.u64(b' ')?,
        margin: r.u32(b' ')?,
        percent: double(r.hex(b' ')?),
        p999: r.maybe_u32(b' ')?,
        largest: r.maybe_u32(b' ')?,
        current: r.u32(b' ')?,
        time: r.u64(b' ')?,
    };
    Some(r.found(Lone::Hold(HoldCall::Next(asked))))
}

// ---- the clocks

#[tactic(auto, unfolding(crate::specs::Alone::co_set_line))]
fn co_set(mut r: Reader<'_>) -> Option<Word<Lone>>
    ensures { result ≡ co_set_line r.entry.s.now r.entry.at }
{
    r.word(b"co_set")?;
    let due = r.maybe_u64(b' ')?;
    Some(r.found(Lone::Coalesce(CoalesceCall::CoalesceSet(due))))
}

#[tactic(auto, unfolding(crate::specs::Alone::co_changed_line))]
fn co_changed(mut r: Reader<'_>) -> Option<Word<Lone>>
    ensures { result ≡ co_changed_line r.entry.s.now r.entry.at }
{
    r.word(b"co_changed")?;
    let asked = ChangedAsked {
        time: r.u64(b' ')?,
        delay: r.u64(b' ')?,
    };
    Some(r.found(Lone::Coalesce(CoalesceCall::Changed(asked))))
}

#[tactic(auto, unfolding(crate::specs::Alone::co_take_due_line))]
fn co_take_due(mut r: Reader<'_>) -> Option<Word<Lone>>
    ensures { result ≡ co_take_due_line r.entry.s.now r.entry.at }
{
    r.word(b"co_take_due")?;
    let time = r.u64(b' ')?;
    Some(r.found(Lone::Coalesce(CoalesceCall::TakeDue(time))))
}

#[tactic(auto, unfolding(crate::specs::Alone::q_set_line))]
fn q_set(mut r: Reader<'_>) -> Option<Word<Lone>>
    ensures { result ≡ q_set_line r.entry.s.now r.entry.at }
{
    r.word(b"q_set")?;
    let down = down_of(r.maybe_pair(b' ', u64::MAX)?);
    Some(r.found(Lone::Schedule(ScheduleCall::QuerySet(down))))
}

#[tactic(auto, unfolding(crate::specs::Alone::q_up_line))]
fn q_up(mut r: Reader<'_>) -> Option<Word<Lone>>
    ensures { result ≡ q_up_line r.entry.s.now r.entry.at }
{
    r.word(b"q_up")?;
    let time = r.u64(b' ')?;
    Some(r.found(Lone::Schedule(ScheduleCall::QueryUp(time))))
}

#[tactic(auto, unfolding(crate::specs::Alone::q_failed_line))]
fn q_failed(mut r: Reader<'_>) -> Option<Word<Lone>>
    ensures { result ≡ q_failed_line r.entry.s.now r.entry.at }
{
    r.word(b"q_failed")?;
    let time = r.u64(b' ')?;
    Some(r.found(Lone::Schedule(ScheduleCall::QueryFailed(time))))
}

// ---- a delay file

#[tactic(auto, unfolding(crate::specs::Alone::dread1_line))]
fn dread1(mut r: Reader<'_>) -> Option<Word<Lone>>
    ensures { result ≡ dread1_line r.entry.s.now r.entry.at }
{
    r.word(b"dread1")?;
    let file = file_word(&mut r, b' ')?;
    Some(r.found(Lone::ReadDelays(file)))
}

// ---- the lines in groups, and all
// `or` reads each form, whichever is there: under `or_else` each closure would state again what its function ensures.

#[tactic(auto, unfolding(crate::specs::Alone::number_lines))]
fn number_lines(r: Reader<'_>) -> Option<Word<Lone>>
    ensures { result ≡ number_lines r.entry.s.now r.entry.at }
{
    ms(r)
        .or(samples(r))
        .or(need(r))
        .or(index_at(r))
        .or(time_of(r))
}

#[tactic(auto, unfolding(crate::specs::Alone::window_lines))]
fn window_lines(r: Reader<'_>, buckets: usize) -> Option<Word<Lone>>
    ensures { result ≡ window_lines r.entry.s.now r.entry.at buckets }
{
    wnew(r)
        .or(wset(r, buckets))
        .or(wsum(r, buckets))
        .or(wpush(r))
        .or(bare(r, b"wclear", Lone::Window(WindowCall::Clear)))
        .or(bare(r, b"wspan", Lone::Window(WindowCall::Span)))
        .or(wquant(r))
}

#[tactic(auto, unfolding(crate::specs::Alone::hold_lines))]
fn hold_lines(r: Reader<'_>) -> Option<Word<Lone>>
    ensures { result ≡ hold_lines r.entry.s.now r.entry.at }
{
    bare(r, b"hnew", Lone::Hold(HoldCall::HoldNew))
        .or(hset(r))
        .or(next(r))
}

#[tactic(auto, unfolding(crate::specs::Alone::clock_lines))]
fn clock_lines(r: Reader<'_>) -> Option<Word<Lone>>
    ensures { result ≡ clock_lines r.entry.s.now r.entry.at }
{
    co_set(r)
        .or(co_changed(r))
        .or(bare(r, b"co_pending", Lone::Coalesce(CoalesceCall::Pending)))
        .or(bare(r, b"co_take", Lone::Coalesce(CoalesceCall::Take)))
        .or(co_take_due(r))
        .or(q_set(r))
        .or(q_up(r))
        .or(q_failed(r))
}

// The line that stands at this place, of the calls that need no supervisor.
#[tactic(auto, unfolding(crate::specs::Alone::lone_line))]
pub fn lone_at(r: Reader<'_>, buckets: usize) -> Option<Word<Lone>>
    ensures { result ≡ lone_line r.entry.s.now r.entry.at buckets }
{
    number_lines(r)
        .or(window_lines(r, buckets))
        .or(hold_lines(r))
        .or(clock_lines(r))
        .or(dread1(r))
}
