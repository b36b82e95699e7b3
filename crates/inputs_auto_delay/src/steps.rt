// The parts of the steps in `inner`: one input's window and lags, its late events, its quantile, and the answer of its hold.
ghost use Rattle.std.specs.Prelude.{◌≡◌, ℕ, ◌<◌, ◌≤◌, List};
ghost use Rattle.base.specs.Limits.{samples_limit, counter_limit};
ghost use Rattle.policy.specs.Settings.{Sound};
ghost use Rattle.rules_record.specs.Slots.{with_hold};
ghost use Rattle.rules_record.specs.Inputs.{slot_at, put_slot};
ghost use Rattle.inputs_commands.specs.Sending.{Room, Does};
ghost use Rattle.delay_hold.specs.Checks.{Asked};
ghost use Rattle.delay_hold.specs.Next.{held, decided, next_of, one_millisecond, always_lower};
ghost use Rattle.delay_hold.specs.Steps5To8.{timer_off, with_lower};
ghost use Rattle.rules_record.specs.Lent.{lists, window_for};
ghost use Rattle.rules_record.specs.Facts.{OwnSums};
ghost use Rattle.rules_tick.specs.Lags.{last_lag_of};
ghost use Rattle.rules_tick.specs.LateEvents.{late_now, late_events_of};
ghost use Rattle.rules_tick.specs.AutoDelay.{p999_of, current_of, next_for, Answered, answered};
ghost use Rattle.rules_tick.specs.InputReady.{P999Asked, AutoAsked};

use delay_hold::{DelayHold, HoldLists, Next};
use inputs_commands::Commands;
use policy::DelayPolicy;
use rules_record::{Inputs, Slot, State};

// How long the seconds of lags must span before the first automatic setting.
const MIN_LAG_SECONDS: u64 = 1;

const MIN_SPAN: u64 = MIN_LAG_SECONDS * base::NANOS;

// The last of the lags, or the one before where there are none.
#[tactic(auto, unfolding(rules_tick::specs::Lags::last_lag_of))]
pub(crate) fn last_lag(lags: &[u32], before: u32) -> u32
    ensures { result ≡ last_lag_of lags.now before }
{
    lags.last().copied().unwrap_or(before)
}

// Whether a block of a running input was late: above what the applied delay covers, and within what the largest delay would.
// It is the late test of a hold's `next` with the applied delay in the place of the current one; there it stands within the steps of `next`.
pub(crate) fn late_now(policy: DelayPolicy, slot: Slot, applied: u32, max_lag: Option<u32>) -> bool
    requires { Sound policy × (applied ≤ samples_limit) }
    ensures { result ≡ late_now policy slot applied max_lag }
{
    if slot.state != State::Running {
        return false;
    }
    let Some(lag) = max_lag else {
        return false;
    };
    if policy.read_offset + policy.delay_max < lag {
        return false;
    }
    policy.read_offset + applied < lag
}

// The late events: one more where the tick before was not late.
pub(crate) fn late_events(slot: Slot, late: bool) -> u64
    requires { slot.late_events < counter_limit }
    ensures { result ≡ late_events_of slot late }
{
    if !late {
        return slot.late_events;
    }
    if slot.late_before {
        return slot.late_events;
    }
    slot.late_events + 1
}

// The timer of a stalled input is turned off.
pub(crate) fn interrupted(inputs: Inputs, i: usize, slot: Slot) -> Inputs
    ensures { result ≡ put_slot inputs i (with_hold slot (with_lower slot.hold timer_off)) }
{
    let hold = slot.hold;
    let changed = Slot {
        hold: delay_hold::inner::interrupt(hold),
        ..slot
    };
    inputs_slots::put_slot(inputs, i, changed)
}

// The 0.999 quantile of the lags that the largest delay could cover, after a second of lags: from the row of sums alone; the contract says it of every list of counts that has these sums.
fn p999(inputs: Inputs, slot: Slot, i: usize, starts: &[u64], sums: &[u64]) -> Option<u32>
    requires { P999Asked inputs slot i starts.now sums.now }
    ensures { (totals counts times peaks : List ℕ) → OwnSums inputs (lists starts.now totals counts sums.now times peaks) i slot → result ≡ p999_of inputs.policy (window_for inputs (lists starts.now totals counts sums.now times peaks) i slot) }
{
    let policy = inputs.policy;
    let window = inputs_window::inner::window_in(policy, inputs.width, slot);
    if inputs_window::inner::span(window, i, starts) < MIN_SPAN {
        return None;
    }
    let limit = policy.read_offset + policy.delay_max;
    // The form that document 01 names.
    let quantile = inputs_window::inner::quantile_upto(window, i, 0.999, limit, sums);
    let Some(end) = quantile else {
        return None;
    };
    Some(end)
}

// The proposal, or else the delay.
fn current(slot: Slot) -> u32
    ensures { result ≡ current_of slot }
{
    slot.proposed.unwrap_or(slot.delay)
}

// What a hold decides, on its own lists. They come one by one: a part that goes into a struct straight away is not followed back to its list.
fn next_own(
    hold: DelayHold,
    times: &mut [u64],
    lags: &mut [u32],
    p999: Option<u32>,
    max_lag: Option<u32>,
    current: u32,
    policy: DelayPolicy,
    time: u64,
) -> Next
    requires { Asked policy (held hold times.old lags.old) p999 current }
    ensures { decided result times.new lags.new ≡ next_of one_millisecond always_lower policy (held hold times.old lags.old) p999 max_lag current time }
{
    let mut own = HoldLists { times, lags };
    delay_hold::inner::next(
        hold,
        &mut own,
        p999,
        max_lag,
        current,
        policy,
        time,
        delay_hold::inner::DELAY_LOWER_SAMPLES,
        delay_hold::inner::ALWAYS_LOWER,
    )
}

// What the hold of input i, whose slot this is, decides.
pub(crate) fn next_for(
    inputs: Inputs,
    slot: Slot,
    i: usize,
    max_lag: Option<u32>,
    time: u64,
    starts: &[u64],
    sums: &[u64],
    times: &mut [u64],
    peaks: &mut [u32],
) -> Next
    requires { (slot ≡ slot_at inputs i) × AutoAsked inputs i starts.now sums.now times.old peaks.old }
    ensures { (totals counts : List ℕ) → OwnSums inputs (lists starts.now totals counts sums.now times.old peaks.old) i (slot_at inputs i) → Answered i (next_for i max_lag time inputs (lists starts.now totals counts sums.now times.old peaks.old)) result (lists starts.now totals counts sums.now times.old peaks.old) (lists starts.now totals counts sums.now times.new peaks.new) }
{
    let policy = inputs.policy;
    let hold = slot.hold;
    let p999 = p999(inputs, slot, i, starts, sums);
    let from = i * DelayHold::PLACES;
    let to = from + DelayHold::PLACES;
    next_own(
        hold,
        &mut times[from..to],
        &mut peaks[from..to],
        p999,
        max_lag,
        current(slot),
        policy,
        time,
    )
}

// The answer of the hold of input i, whose slot this is now: a proposal where changes are confirmed, else the delay.
pub(crate) fn answer(
    inputs: Inputs,
    i: usize,
    slot: Slot,
    change: Option<u32>,
    time: u64,
    commands: &mut Commands<'_>,
) -> Inputs
    requires { Room 3 commands.old × (i < 16) × (slot.delay_changes < counter_limit) }
    ensures { Does 3 (answered change i time slot inputs) result commands.old commands.new }
{
    let Some(delay) = change else {
        return inputs_slots::put_slot(inputs, i, slot);
    };
    if inputs.confirm {
        let changed = Slot {
            proposed: Some(delay),
            ..slot
        };
        return inputs_slots::put_slot(inputs, i, changed);
    }
    let changed = Slot {
        delay_changes: slot.delay_changes + 1,
        ..slot
    };
    let all = inputs_slots::put_slot(inputs, i, changed);
    inputs_set_delay::inner::set_delay(all, i, delay, time, commands)
}
