// `watch` over the whole record. Inner functions: they ask for room for two commands, and that reopens can be counted.
ghost use Rattle.std.specs.Prelude.{◌≡◌, ◌<◌};
ghost use Rattle.base.specs.Limits.{counter_limit};
ghost use Rattle.inputs_commands.specs.Sending.{CanOpen, Does};
ghost use Rattle.rules_routing.specs.Watch.{lost_slot, watch_of};
ghost use Rattle.inputs_watch.specs.declared.Found.TheVariants.{Still};
ghost use Rattle.inputs_watch.specs.WatchInPlace.{watch_found};

use super::Found;
use inputs_commands::{Command, Commands};
use rules_record::{Inputs, Slot, State};
use rules_routing::World;

// The flow is gone: the input waits for it.
#[tactic(auto, unfolding(rules_routing::specs::Watch::lost_slot))]
fn lost(slot: Slot) -> Slot
    requires { slot.reopens < counter_limit }
    ensures { result ≡ lost_slot slot }
{
    Slot {
        state: State::Waiting,
        reopens: slot.reopens + 1,
        ..slot
    }
}

// The head stands still. The flow may have been re-created under the same inode: after `stall` it is opened again once.
fn watch_still(
    inputs: Inputs,
    i: usize,
    slot: Slot,
    time: u64,
    world: World,
    commands: &mut Commands<'_>,
) -> Inputs
    requires { CanOpen inputs i commands.old × (slot.reopens < counter_limit) }
    ensures { Does 6 (watch_found Still slot inputs i time world) result commands.old commands.new }
{
    if crate::stalls(slot, time, inputs.stall) {
        let stalled = Slot {
            state: State::Stalled,
            ..slot
        };
        let all = inputs_slots::put_slot(inputs, i, stalled);
        return inputs_try_open::inner::try_open(all, i, time, world, commands);
    }
    inputs
}

// `seen` is the inode that `watch` sees, the world is what `try_open` would see.
pub fn watch(
    inputs: Inputs,
    i: usize,
    time: u64,
    seen: Option<u64>,
    world: World,
    commands: &mut Commands<'_>,
) -> Inputs
    requires { CanOpen inputs i commands.old }
    ensures { Does 6 (watch_of inputs i time seen world) result commands.old commands.new }
{
    let slot = inputs_slots::slot_at(inputs, i);
    let to = slot.route;
    let stored = slot.inode;
    let found = crate::finds(to, seen, stored, slot.last_head, world.head);
    match found {
        Found::Unwatched => inputs,
        Found::Lost => {
            commands.send(Command::ClearInput {
                input: i,
                forget: false,
            });
            let waits = lost(slot);
            inputs_slots::put_slot(inputs, i, waits)
        }
        Found::Created => { inputs_try_open::inner::try_open(inputs, i, time, world, commands) }
        Found::Moved => {
            let moved = crate::moved(slot, world.head, time);
            inputs_slots::put_slot(inputs, i, moved)
        }
        Found::Still => watch_still(inputs, i, slot, time, world, commands),
    }
}
