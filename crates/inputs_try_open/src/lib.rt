// Opening an input's flow: the slot once its reader is open, and the delay that it starts with.
#![tactic(auto)]

ghost use Rattle.std.specs.Prelude.{◌≡◌};
ghost use Rattle.rules_routing.specs.ReaderCheck.{reader_fits};
ghost use Rattle.rules_routing.specs.TryOpen.{running_slot, starts_anew, seeded_at};

use rules_record::{Inputs, Slot, State};

pub mod inner;

// Has a reader that opens at most 64 channels (check 10)?
pub fn reader_fits(reader: Option<u32>) -> bool
    ensures { result ≡ reader_fits reader }
{
    reader.is_none_or(|channels| channels <= 64)
}

// The time of the SetInput, inode and head are stored. A stalled input is still stalled until the head moves again.
fn running(slot: Slot, inode: u64, head: u64, time: u64) -> Slot
    ensures { result ≡ running_slot slot inode head time }
{
    let placed = Slot {
        inode: Some(inode),
        last_head: head,
        last_input: Some(time),
        ..slot
    };
    if slot.state == State::Stalled {
        return placed;
    }
    Slot {
        state: State::Running,
        head_changed: time,
        ..placed
    }
}

// Does an input that opens start at the delay that its flow had last?
#[tactic(auto, using(rules_record::proofs::Derived::state_eq), unfolding(rules_routing::specs::TryOpen::starts_anew, base::specs::Choice::both))]
fn starts(slot: Slot) -> bool
    ensures { result ≡ starts_anew slot }
{
    inputs_slots::automatic(slot) && slot.state == State::Waiting && slot.delay == 0
}

// The delay is the seed of the input's hold.
fn seed(inputs: Inputs, i: usize, delay: u32, time: u64) -> Inputs
    ensures { result ≡ seeded_at i delay time inputs }
{
    let slot = inputs_slots::slot_at(inputs, i);
    let changed = Slot {
        hold: delay_hold::inner::seed(slot.hold, delay, time),
        ..slot
    };
    inputs_slots::put_slot(inputs, i, changed)
}
