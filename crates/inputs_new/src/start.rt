// The inputs of a new supervisor: their kinds, and the delays of the manual ones.
ghost use Rattle.std.specs.Prelude.{◌≡◌, ◌*◌, ◌<◌, ◌≤◌};
ghost use Rattle.inputs_commands.specs.Sending.{Room, CanSend, Does};
ghost use Rattle.rules_calls.specs.NewStart.{kind_at, made_at, started_one, started_below};

use inputs_commands::Commands;
use rules_record::{ExtraDelay, InputConfig, Inputs, Slot};

// The delay kind of input i; there are 16 places.
fn kind_at(kinds: [ExtraDelay; 16], i: usize) -> ExtraDelay
    requires { i < 16 }
    ensures { result ≡ kind_at kinds i }
{
    kinds[i]
}

// The kind of input i is stored, with the time of the call for its head.
fn made_at(inputs: Inputs, i: usize, kind: ExtraDelay, time: u64) -> Inputs
    ensures { result ≡ made_at i kind time inputs }
{
    let config = InputConfig { extra_delay: kind };
    let slot = inputs_slots::slot_at(inputs, i);
    let made = Slot {
        config,
        last_head: 0,
        head_changed: time,
        ..slot
    };
    inputs_slots::put_slot(inputs, i, made)
}

// A manual input gets the smaller of its samples and the maximum.
fn started_one(
    inputs: Inputs,
    i: usize,
    kind: ExtraDelay,
    time: u64,
    commands: &mut Commands<'_>,
) -> Inputs
    requires { CanSend i commands.old }
    ensures { Does 3 (started_one i kind time inputs) result commands.old commands.new }
{
    let all = made_at(inputs, i, kind, time);
    let ExtraDelay::Ms(delay) = kind else {
        return all;
    };
    let policy = inputs.policy;
    let samples = doubles::samples(delay).min(policy.delay_max);
    inputs_set_delay::inner::set_delay(all, i, samples, time, commands)
}

// The inputs in their order.
pub(crate) fn started(
    inputs: Inputs,
    count: usize,
    kinds: [ExtraDelay; 16],
    time: u64,
    commands: &mut Commands<'_>,
) -> Inputs
    requires { Room (count * 3) commands.old × (count ≤ 16) }
    ensures { Does (count * 3) (started_below count kinds time inputs) result commands.old commands.new }
{
    let mut all = inputs;
    for i in 0..count {
        all = started_one(all, i, kind_at(kinds, i), time, commands);
    }
    all
}
