// Watching a running input: what is found of its flow, its slot when the head moved, and whether it stalls.
#![tactic(auto)]

ghost use Rattle.std.specs.Prelude.{◌≡◌};
ghost use Rattle.rules_routing.specs.Watch.{moved_slot, stalls_now};
ghost use Rattle.inputs_watch.specs.WatchInPlace.{found_by};

use rules_record::{Route, Slot, State};

pub mod inner;

// What `watch` finds: the input has no route; its flow is gone; is there under another inode, or was not opened yet; its head moved; its head stands still.
#[derive(Clone, Copy)]
pub enum Found {
    Unwatched,
    Lost,
    Created,
    Moved,
    Still,
}

// What is found of a flow, by the inode and the head that are seen and those that are stored.
pub fn finds(
    to: Option<Route>,
    seen: Option<u64>,
    stored: Option<u64>,
    last_head: u64,
    head: u64,
) -> Found
    ensures { result ≡ found_by to seen stored last_head head }
{
    // These are the form that document 01 names.
    let Some(_) = to else {
        return Found::Unwatched;
    };
    let Some(inode) = seen else {
        return Found::Lost;
    };
    let Some(mine) = stored else {
        return Found::Created;
    };
    if mine != inode {
        return Found::Created;
    }
    if head != last_head {
        return Found::Moved;
    }
    Found::Still
}

// The head moved: a stalled input runs again.
pub fn moved(slot: Slot, head: u64, time: u64) -> Slot
    ensures { result ≡ moved_slot slot head time }
{
    let seen = Slot {
        last_head: head,
        head_changed: time,
        ..slot
    };
    if slot.state == State::Stalled {
        return Slot {
            state: State::Running,
            ..seen
        };
    }
    seen
}

// Has a running input had the same head for at least `stall`?
#[tactic(auto, using(rules_record::proofs::Derived::state_eq), unfolding(rules_routing::specs::Watch::stalls_now, base::specs::Choice::both))]
fn stalls(slot: Slot, time: u64, stall: u64) -> bool
    ensures { result ≡ stalls_now slot time stall }
{
    slot.state == State::Running && stall <= time.saturating_sub(slot.head_changed)
}
