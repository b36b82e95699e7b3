// Over the whole record and the lists of all inputs, for the crates above, which have checked what is asked here.
ghost use Rattle.std.specs.Prelude.{◌≡◌, ℕ, List, [], length};
ghost use Rattle.rules_record.specs.Inputs.{slot_at, put_slot};
ghost use Rattle.rules_record.specs.Lent.{lists};
ghost use Rattle.rules_record.specs.Lending.{SameLists};
ghost use Rattle.rules_record.specs.Facts.{OwnSums};
ghost use Rattle.rules_record.specs.Effects.{silent};
ghost use Rattle.inputs_commands.specs.Sending.{Room, Affects};
ghost use Rattle.rules_tick.specs.Lags.{arrived, largest_of};
ghost use Rattle.rules_tick.specs.LateEvents.{late_slot};
ghost use Rattle.rules_tick.specs.AutoDelay.{auto_delayed};
ghost use Rattle.rules_tick.specs.InputReady.{ArriveAsked, LateAsked, AutoAsked};

use super::steps;
use inputs_commands::Commands;
use policy::DelayPolicy;
use rules_record::{AllLists, Inputs, Slot, State};

// The slot of input i after the lags of one tick are pushed to its window, and the last one is kept. The caller puts it, with what else the tick changes in it: a record is large, and each call that returns one copies it.
// Nothing is asked of the times and peaks: the answer is the same whatever they are, and they stay.
pub fn arrive(inputs: Inputs, i: usize, lags: &[u32], time: u64, lent: &mut AllLists<'_>) -> Slot
    requires { ArriveAsked inputs (lists lent.old.starts.now lent.old.totals.now lent.old.counts.now lent.old.sums.now [] []) i time (length lags.now) }
    ensures arrived { (times peaks : List ℕ) → silent (put_slot inputs i result) (lists lent.new.starts.now lent.new.totals.now lent.new.counts.now lent.new.sums.now times peaks) ≡ arrived i time lags.now inputs (lists lent.old.starts.now lent.old.totals.now lent.old.counts.now lent.old.sums.now times peaks) }
    ensures times_kept { lent.new.times.now ≡ lent.old.times.now }
    ensures peaks_kept { lent.new.peaks.now ≡ lent.old.peaks.now }
    ensures same { SameLists lent.old lent.new }
{
    let slot = inputs_slots::slot_at(inputs, i);
    let policy = inputs.policy;
    let before = inputs_window::inner::window_in(policy, inputs.width, slot);
    let window = inputs_window::inner::push_all(before, i, lags, time, lent);
    Slot {
        lag_seconds: window.seconds,
        last_lag: steps::last_lag(lags, slot.last_lag),
        ..slot
    }
}

// The largest of all the lags of a tick, if any.
pub fn max_lag(lags: &[u32]) -> Option<u32>
    ensures { result ≡ largest_of lags.now }
{
    delay_hold::inner::worst(lags)
}

// The slot in which a late event counts, judged by the state before `watch` and the applied delay.
pub fn late_event(policy: DelayPolicy, slot: Slot, applied: u32, max_lag: Option<u32>) -> Slot
    requires { LateAsked policy slot applied }
    ensures { result ≡ late_slot policy slot applied max_lag }
{
    let late = steps::late_now(policy, slot, applied, max_lag);
    Slot {
        late_events: steps::late_events(slot, late),
        late_before: late,
        ..slot
    }
}

// The automatic delay of input i decides on the largest lag of the tick. Of its window it reads the starts and the row of sums alone; the contract says it of every list of totals and counts that has these sums.
pub fn auto_delay(
    inputs: Inputs,
    i: usize,
    max_lag: Option<u32>,
    time: u64,
    starts: &[u64],
    sums: &[u64],
    times: &mut [u64],
    peaks: &mut [u32],
    commands: &mut Commands<'_>,
) -> Inputs
    requires auto_asked { AutoAsked inputs i starts.now sums.now times.old peaks.old }
    requires used_in_bounds { Room 3 commands.old }
    ensures { (totals counts : List ℕ) → OwnSums inputs (lists starts.now totals counts sums.now times.old peaks.old) i (slot_at inputs i) → Affects 3 (auto_delayed i max_lag time inputs (lists starts.now totals counts sums.now times.old peaks.old)) result (lists starts.now totals counts sums.now times.new peaks.new) commands.old commands.new }
{
    let slot = inputs_slots::slot_at(inputs, i);
    if slot.state == State::Stalled {
        return steps::interrupted(inputs, i, slot);
    }
    if slot.state != State::Running {
        return inputs;
    }
    if !inputs_slots::automatic(slot) {
        return inputs;
    }
    let next = steps::next_for(inputs, slot, i, max_lag, time, starts, sums, times, peaks);
    let hold = next.hold;
    let change = next.change;
    let decided = Slot { hold, ..slot };
    steps::answer(inputs, i, decided, change, time, commands)
}
