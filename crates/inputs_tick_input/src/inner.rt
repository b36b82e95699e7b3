// Over the whole record and the lists of all inputs, for the crate above, which has checked what is asked here.
ghost use Rattle.std.specs.Prelude.{◌≡◌, ℕ, ◌<◌, ◌≤◌, true, [], length};
ghost use Rattle.base.specs.Limits.{time_limit};
ghost use Rattle.rules_record.specs.declared.Inputs.{Inputs};
ghost use Rattle.rules_record.specs.States.{state_number};
ghost use Rattle.rules_record.specs.Inputs.{slot_at, put_slot};
ghost use Rattle.rules_record.specs.Sized.{Sized};
ghost use Rattle.rules_record.specs.Commands.{quiet};
ghost use Rattle.rules_routing.specs.Watch.{moved_slot};
ghost use Rattle.rules_record.specs.Lent.{Lists};
ghost use Rattle.rules_record.specs.Lending.{lists_lent, SameLists};
ghost use Rattle.rules_record.specs.Facts.{OwnSums};
ghost use Rattle.rules_record.specs.Effects.{silent};
ghost use Rattle.inputs_commands.specs.Sending.{Room, CanOpen, Does, Affects};
ghost use Rattle.rules_tick.specs.Tick.{looked, ticked_input};
ghost use Rattle.rules_tick.specs.TickAsked.{InputAsked};

use inputs_commands::Commands;
use inputs_watch::Found;
use rules_record::{AllLists, Inputs, Slot, State};
use rules_tick::Look;

// A waiting input opens, a running or stalled one watches.
fn look_at(inputs: Inputs, i: usize, look: Look, time: u64, commands: &mut Commands<'_>) -> Inputs
    requires { CanOpen inputs i commands.old }
    ensures { Does 6 (looked i look time inputs) result commands.old commands.new }
{
    let slot = inputs_slots::slot_at(inputs, i);
    let state = slot.state;
    let world = look.world;
    match state {
        State::Unrouted => inputs,
        State::Waiting => { inputs_try_open::inner::try_open(inputs, i, time, world, commands) }
        State::Running | State::Stalled => {
            let seen = look.seen;
            inputs_watch::inner::watch(inputs, i, time, seen, world, commands)
        }
    }
}

// Is an input with this slot neither opened nor watched? It has no route, or it waits for an inode.
fn rests(slot: Slot, look: Look) -> bool
    ensures { result ≡ true → (state_number slot.state < 2) × ((s : Inputs) (i time : ℕ) → slot_at s i ≡ slot → looked i look time s ≡ quiet s) }
{
    if State::Waiting < slot.state {
        return false;
    }
    if slot.state != State::Waiting {
        return true;
    }
    let world = look.world;
    let found = world.inode;
    let Some(_) = found else {
        return true;
    };
    false
}

// Does the whole tick of an input with this slot leave everything as it was? It rests, no lags arrive, and it is not marked late.
pub fn stays(slot: Slot, look: Look) -> bool
    ensures { result ≡ true → (look.lags ≡ 0) × ((s : Inputs) (l : Lists) (i time : ℕ) → slot_at s i ≡ slot → OwnSums s l i slot → ticked_input i look [] time s l ≡ silent s l) }
{
    if look.lags != 0 {
        return false;
    }
    if slot.late_before {
        return false;
    }
    rests(slot, look)
}

// Does an input with this slot watch, and only see its head move?
fn moves(slot: Slot, look: Look) -> bool
    ensures { result ≡ true → ((s : Inputs) (i time : ℕ) → slot_at s i ≡ slot → looked i look time s ≡ quiet (put_slot s i (moved_slot slot look.world.head time))) }
{
    if slot.state < State::Running {
        return false;
    }
    let to = slot.route;
    let stored = slot.inode;
    let seen = look.seen;
    let world = look.world;
    let found = inputs_watch::finds(to, seen, stored, slot.last_head, world.head);
    match found {
        Found::Moved => true,
        _ => false,
    }
}

// Input i: its lags arrive, a late event counts, it opens or watches, and its automatic delay decides.
pub fn tick_input(
    inputs: Inputs,
    i: usize,
    look: Look,
    lags: &[u32],
    time: u64,
    lists: &mut AllLists<'_>,
    commands: &mut Commands<'_>,
) -> Inputs
    requires sized { Sized inputs × (time ≤ time_limit) }
    requires input_asked { InputAsked inputs (lists_lent lists.old) i look (length lags.now) time }
    requires used_in_bounds { Room 9 commands.old }
    ensures affects { Affects 9 (ticked_input i look lags.now time inputs (lists_lent lists.old)) result (lists_lent lists.new) commands.old commands.new }
    ensures same { SameLists lists.old lists.new }
{
    let arrived = inputs_auto_delay::inner::arrive(inputs, i, lags, time, lists);
    let max_lag = inputs_auto_delay::inner::max_lag(lags);
    let policy = inputs.policy;
    let heard = inputs_auto_delay::inner::late_event(policy, arrived, look.applied, max_lag);
    let mut before = inputs;
    before.slots[i] = heard;
    // Most inputs wait for their flow or see their head move: their record goes through no function that opens or watches.
    if rests(heard, look) {
        return before;
    }
    // The automatic delay is lent four of the lists, each by a name of its own: no field of a struct is read where another is lent.
    let starts = &mut *lists.starts;
    let sums = &mut *lists.sums;
    let times = &mut *lists.times;
    let peaks = &mut *lists.peaks;
    if moves(heard, look) {
        let world = look.world;
        let moved = inputs_watch::moved(heard, world.head, time);
        before.slots[i] = moved;
        return inputs_auto_delay::inner::auto_delay(
            before, i, max_lag, time, starts, sums, times, peaks, commands,
        );
    }
    let seen = look_at(before, i, look, time, commands);
    inputs_auto_delay::inner::auto_delay(
        seen, i, max_lag, time, starts, sums, times, peaks, commands,
    )
}
