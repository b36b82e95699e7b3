// The record of one input and of all inputs, by value, with a function for each part that changes.
#![tactic(auto)]

ghost use Rattle.std.specs.Prelude.{◌≡◌};
ghost use Rattle.rules_record.specs.Slots.{with_lag_seconds, with_hold, is_auto, empty_slot};
ghost use Rattle.rules_record.specs.Inputs.{slot_at, put_slot};

use delay_hold::DelayHold;
use rules_record::{AutoTag, ExtraDelay, InputConfig, Inputs, Route, Slot, State};

// Is the input's delay automatic?
pub fn automatic(slot: Slot) -> bool
    ensures { result ≡ is_auto slot.config.extra_delay }
{
    matches!(slot.config.extra_delay, ExtraDelay::Auto(_))
}

// An unused place: automatic, without a route, every number zero.
#[tactic(auto, unfolding(rules_record::specs::Slots::empty_slot))]
pub fn empty_slot() -> Slot
    ensures { result ≡ empty_slot }
{
    let extra_delay = ExtraDelay::Auto(AutoTag::Auto);
    let config = InputConfig { extra_delay };
    let hold = delay_hold::inner::fresh();
    Slot {
        config,
        state: State::Unrouted,
        route: None,
        inode: None,
        last_head: 0,
        head_changed: 0,
        reopens: 0,
        lag_seconds: 0,
        last_lag: 0,
        delay: 0,
        proposed: None,
        hold,
        delay_changes: 0,
        late_events: 0,
        late_before: false,
        last_set: None,
        last_input: None,
    }
}

// The slot of input i; there are 16 places.
#[tactic(auto, unfolding(rules_record::specs::Inputs::slot_at))]
pub fn slot_at(inputs: Inputs, i: usize) -> Slot
    ensures { result ≡ slot_at inputs i }
{
    inputs.slots.get(i).copied().unwrap_or_else(empty_slot)
}

#[tactic(auto, unfolding(rules_record::specs::Inputs::put_slot))]
pub fn put_slot(inputs: Inputs, i: usize, slot: Slot) -> Inputs
    ensures { result ≡ put_slot inputs i slot }
{
    if i < 16 {
        let mut all = inputs;
        all.slots[i] = slot;
        return all;
    }
    inputs
}

// Two parts by their definitions' names, for the input that a host writes by hand.
pub fn with_lag_seconds(slot: Slot, lag_seconds: usize) -> Slot
    ensures { result ≡ with_lag_seconds slot lag_seconds }
{
    Slot {
        lag_seconds,
        ..slot
    }
}

pub fn with_hold(slot: Slot, hold: DelayHold) -> Slot
    ensures { result ≡ with_hold slot hold }
{
    Slot { hold, ..slot }
}
