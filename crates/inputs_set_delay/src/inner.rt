// Over the whole record. Inner function: it asks for room for one command.
ghost use Rattle.inputs_commands.specs.Sending.{CanSend, Does};
ghost use Rattle.rules_routing.specs.SetDelay.{set_delay_of};

use inputs_commands::{Command, Commands};
use rules_record::{Inputs, Slot};

pub fn set_delay(
    inputs: Inputs,
    i: usize,
    delay: u32,
    time: u64,
    commands: &mut Commands<'_>,
) -> Inputs
    requires { CanSend i commands.old }
    ensures { Does 3 (set_delay_of inputs i delay time) result commands.old commands.new }
{
    let slot = inputs_slots::slot_at(inputs, i);
    let changed = Slot {
        delay,
        last_set: Some(time),
        ..slot
    };
    let stored = inputs_slots::put_slot(inputs, i, changed);
    commands.send(Command::SetDelay {
        input: i,
        samples: delay,
    });
    inputs_flows::remember_for(stored, slot, delay)
}
