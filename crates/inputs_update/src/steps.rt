// The parts of the calls: what changes in a slot, and a delay set.
ghost use Rattle.std.specs.Prelude.{◌≡◌, ◌<◌, ◌≤◌, length};
ghost use Rattle.base.specs.Limits.{counter_limit};
ghost use Rattle.base.specs.Lists.{padded};
ghost use Rattle.rules_calls.specs.Update.{kind_stored, delay_set};
ghost use Rattle.rules_calls.specs.ConfirmDelay.{taken};

use inputs_commands::Commands;
use rules_record::{ExtraDelay, InputConfig, Inputs, Slot};

// The kind is stored, the proposal goes.
pub(crate) fn with_kind(slot: Slot, kind: ExtraDelay) -> Slot
    ensures { result ≡ kind_stored slot kind }
{
    let config = InputConfig { extra_delay: kind };
    Slot {
        config,
        proposed: None,
        ..slot
    }
}

// The proposal is taken: one delay change more.
pub(crate) fn taken(slot: Slot) -> Slot
    requires { slot.delay_changes < counter_limit }
    ensures { result ≡ taken slot }
{
    Slot {
        proposed: None,
        delay_changes: slot.delay_changes + 1,
        ..slot
    }
}

// Input i has this slot, and then its delay is set; the whole list of commands is written.
pub(crate) fn delay_set(
    inputs: Inputs,
    i: usize,
    slot: Slot,
    delay: u32,
    time: u64,
    commands: &mut [u32],
) -> Inputs
    requires { (3 ≤ length commands.old) × (i < 16) }
    ensures { (result ≡ (delay_set i slot delay time inputs).inputs) × (commands.new ≡ padded (length commands.old) (delay_set i slot delay time inputs).words) }
{
    commands.fill(0);
    let all = inputs_slots::put_slot(inputs, i, slot);
    let mut sent = Commands {
        words: commands,
        used: 0,
    };
    inputs_set_delay::inner::set_delay(all, i, delay, time, &mut sent)
}
