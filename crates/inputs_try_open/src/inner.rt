// `try_open` over the whole record. Inner functions: they ask for room for two commands, and that reopens can be counted.
ghost use Rattle.std.specs.Prelude.{◌≡◌, ◌<◌};
ghost use Rattle.base.specs.Limits.{counter_limit};
ghost use Rattle.inputs_commands.specs.Sending.{CanSend, CanOpen, Does};
ghost use Rattle.rules_routing.specs.TryOpen.{opened_slot, start_of, recall_of, open_reader, try_open_of};

use inputs_commands::{Command, Commands};
use rules_record::{Inputs, Instance, Slot, State};
use rules_routing::World;

// The slot once its reader is open.
fn opened(slot: Slot, inode: u64, head: u64, time: u64) -> Slot
    requires { slot.reopens < counter_limit }
    ensures { result ≡ opened_slot slot inode head time }
{
    let runs = crate::running(slot, inode, head, time);
    if slot.state == State::Waiting {
        return runs;
    }
    Slot {
        reopens: slot.reopens + 1,
        ..runs
    }
}

// The delay of the last run, within the maximum, is set and is the seed.
fn start(inputs: Inputs, i: usize, last: u32, time: u64, commands: &mut Commands<'_>) -> Inputs
    requires { CanSend i commands.old }
    ensures { Does 3 (start_of inputs i last time) result commands.old commands.new }
{
    let policy = inputs.policy;
    let delay = last.min(policy.delay_max);
    let set = inputs_set_delay::inner::set_delay(inputs, i, delay, time, commands);
    crate::seed(set, i, delay, time)
}

// An input that opens starts at the delay that its flow had last; `slot` is as it was before.
fn recall(
    inputs: Inputs,
    i: usize,
    slot: Slot,
    place: usize,
    time: u64,
    commands: &mut Commands<'_>,
) -> Inputs
    requires { CanSend i commands.old }
    ensures { Does 3 (recall_of slot place inputs i time) result commands.old commands.new }
{
    if !crate::starts(slot) {
        return inputs;
    }
    let remembered = inputs_flows::recall(inputs, place);
    let Some(last) = remembered else {
        return inputs;
    };
    start(inputs, i, last, time, commands)
}

// The instance is there: the reader opens or does not.
fn open_reader(
    inputs: Inputs,
    i: usize,
    place: usize,
    inode: u64,
    time: u64,
    world: World,
    commands: &mut Commands<'_>,
) -> Inputs
    requires { CanOpen inputs i commands.old }
    ensures { Does 6 (open_reader world.reader place inode inputs i time world) result commands.old commands.new }
{
    let reader = world.reader;
    let Some(channels) = reader else {
        return inputs;
    };
    let slot = inputs_slots::slot_at(inputs, i);
    commands.send(Command::SetInput { input: i, channels });
    let open = opened(slot, inode, world.head, time);
    let all = inputs_slots::put_slot(inputs, i, open);
    recall(all, i, slot, place, time, commands)
}

// One instance for each generation of a flow, found or made; then the reader.
pub fn try_open(
    inputs: Inputs,
    i: usize,
    time: u64,
    world: World,
    commands: &mut Commands<'_>,
) -> Inputs
    requires { CanOpen inputs i commands.old }
    ensures { Does 6 (try_open_of inputs i time world) result commands.old commands.new }
{
    let slot = inputs_slots::slot_at(inputs, i);
    // These are the form that document 01 names.
    let to = slot.route;
    let Some(route) = to else {
        return inputs;
    };
    let found = world.inode;
    let Some(inode) = found else {
        return inputs;
    };
    let flow = route.flow;
    let key = Instance { flow, inode };
    if inputs_instances::found(inputs, key) {
        let kept = inputs_instances::prune_instances(inputs, Some(key));
        return open_reader(kept, i, flow, inode, time, world, commands);
    }
    if !world.made {
        return inputs;
    }
    let more = inputs_instances::make(inputs, key);
    let kept = inputs_instances::prune_instances(more, Some(key));
    open_reader(kept, i, flow, inode, time, world, commands)
}
