// All inputs of a tick, for a record and lists that the checks let through.
ghost use Rattle.std.specs.Prelude.{◌≡◌, ◌*◌};
ghost use Rattle.rules_record.specs.Lending.{lists_lent, SameLists};
ghost use Rattle.inputs_commands.specs.Sending.{Room, Affects};
ghost use Rattle.rules_tick.specs.Tick.{ticked_below, saved};
ghost use Rattle.rules_tick.specs.TickAsked.{InputsAsked};

use inputs_commands::Commands;
use rules_record::{AllLists, Inputs};
use rules_tick::Look;

// All inputs in order.
pub(crate) fn tick_inputs(
    inputs: Inputs,
    looks: [Look; 16],
    lags: &[u32],
    time: u64,
    lists: &mut AllLists<'_>,
    commands: &mut Commands<'_>,
) -> Inputs
    requires inputs_asked { InputsAsked inputs (lists_lent lists.old) looks lags.now time }
    requires count_in_bounds { Room (inputs.count * 9) commands.old }
    ensures affects { Affects (inputs.count * 9) (ticked_below inputs.count looks lags.now time inputs (lists_lent lists.old)) result (lists_lent lists.new) commands.old commands.new }
    ensures same { SameLists lists.old lists.new }
{
    let mut all = inputs;
    // By its place: the rules know the lags of an input by how many stand before them.
    let mut from: usize = 0;
    for i in 0..inputs.count {
        let look = looks[i];
        let slot = all.slots[i];
        // Most inputs wait for their flow, and their tick changes nothing: the record, which is large, goes through no call for them.
        if inputs_tick_input::inner::stays(slot, look) {
            continue;
        }
        let to = from + look.lags;
        all = inputs_tick_input::inner::tick_input(
            all,
            i,
            look,
            &lags[from..to],
            time,
            lists,
            commands,
        );
        from = to;
    }
    all
}

// The table of remembered delays counts as saved.
pub(crate) fn saved(inputs: Inputs) -> Inputs
    ensures { result ≡ saved inputs }
{
    let mut all = inputs;
    all.unsaved = false;
    all
}
