// The instance table: 18 places, one for each generation of a flow (flow and inode) that was opened and not pruned yet.
#![tactic(auto)]

ghost use Rattle.std.specs.Prelude.{◌≡◌, true, ℕ, ◌<◌, ◌≤◌, get_or};
ghost use Rattle.base.specs.Choice.{pick};
ghost use Rattle.base.specs.Any.{any};
ghost use Rattle.rules_record.specs.Inputs.{slot_at};
ghost use Rattle.rules_record.specs.declared.Instance.{Instance};
ghost use Rattle.rules_record.specs.Instances.{keys_held, found_key, distinct_keys, made};
ghost use Rattle.rules_record.specs.Prune.{uses_key, is_extra, pruned};

use rules_record::{Inputs, Instance, Slot, State};

// How many places of the table are in use; there are 18.
#[tactic(auto, unfolding(rules_record::specs::Instances::keys_held))]
fn places(inputs: Inputs) -> usize
    ensures { result ≡ keys_held inputs }
{
    inputs.instance_count.min(18)
}

// Has the table this key?
pub fn found(inputs: Inputs, key: Instance) -> bool
    ensures { result ≡ found_key inputs key }
{
    let n = places(inputs);
    inputs.instances[..n].contains(&key)
}

// Does the table hold no key twice? As inputs_flows asks of its flows.
pub fn distinct(inputs: Inputs) -> bool
    ensures { result ≡ distinct_keys inputs }
{
    let n = places(inputs);
    let table = &inputs.instances[..n];
    for (i, key) in table.iter().enumerate() {
        if table[..i].contains(key) {
            return false;
        }
    }
    true
}

// The table with this key at the next place, where there is room.
pub fn make(inputs: Inputs, key: Instance) -> Inputs
    ensures { result ≡ made inputs key }
{
    let n = inputs.instance_count;
    if n < 18 {
        let mut all = inputs;
        all.instances[n] = key;
        all.instance_count = n + 1;
        return all;
    }
    inputs
}

// The generation of a flow that a Running or Stalled input reads; the states before Running read none.
fn read_by(slot: Slot) -> Option<Instance>
    ensures { (key : Instance) → is_extra result key ≡ uses_key slot key }
{
    if slot.state < State::Running {
        return None;
    }
    Some(Instance {
        flow: slot.route?.flow,
        inode: slot.inode?,
    })
}

// The same of each input, read once for all keys.
fn all_read(inputs: Inputs) -> [Option<Instance>; 16]
    ensures { (i : ℕ) (key : Instance) → i < 16 → is_extra (get_or result i None) key ≡ uses_key (slot_at inputs i) key }
{
    inputs.slots.map(read_by)
}

// Is it the extra one, or does an input read it?
fn wanted(read: [Option<Instance>; 16], extra: Option<Instance>, key: Instance) -> bool
    ensures { result ≡ pick (is_extra extra key) true (any (λ i. is_extra (get_or read i None) key) 16) }
{
    if extra == Some(key) {
        return true;
    }
    read.contains(&Some(key))
}

// The keys that are wanted, in their order.
pub fn prune_instances(inputs: Inputs, extra: Option<Instance>) -> Inputs
    ensures { result ≡ pruned inputs extra }
{
    let none = Instance { flow: 0, inode: 0 };
    let mut kept = [none; 18];
    let mut count: usize = 0;
    let n = places(inputs);
    let read = all_read(inputs);
    for key in &inputs.instances[..n] {
        if wanted(read, extra, *key) {
            kept[count] = *key;
            count += 1;
        }
    }
    let mut all = inputs;
    all.instances = kept;
    all.instance_count = count;
    all
}
