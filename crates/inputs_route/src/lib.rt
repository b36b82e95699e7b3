// Routing an input (document 01, "Supervision").
#![tactic(auto)]

ghost use Rattle.std.specs.Prelude.{◌≡◌};
ghost use Rattle.refusals.specs.Numbers.{number_in};
ghost use Rattle.rules_record.specs.Lending.{lists_lent, lists_seen, SameLists};
ghost use Rattle.rules_record.specs.Reply.{left_inputs};
ghost use Rattle.rules_calls.specs.RouteChecks.{wanted_fits, route_number};
ghost use Rattle.rules_calls.specs.RouteReply.{route_reply};

use inputs_commands::Commands;
use refusals::Refusal;
use rules_calls::Source;
use rules_record::{AllLists, AllView, Inputs};
use rules_routing::World;

mod steps;

// ---- the checks
// Is the flow known, or is there room for it (check 9), where one is given?
fn wanted_fits(inputs: Inputs, wanted: Option<Source>) -> bool
    ensures { result ≡ wanted_fits inputs wanted }
{
    wanted.is_none_or(|source| inputs_flows::has_room(inputs, source.flow))
}

fn check_route(
    inputs: Inputs,
    input: usize,
    wanted: Option<Source>,
    time: u64,
    world: World,
    lists: AllView<'_>,
    words: usize,
) -> Result<(), Refusal>
    ensures { number_in result ≡ route_number inputs (lists_seen lists.entry) words input wanted time world }
{
    inputs_checks::check_input(inputs, input, time, lists, words)?;
    if !wanted_fits(inputs, wanted) {
        return Err(Refusal::FlowTable);
    }
    let reader = world.reader;
    if !inputs_try_open::reader_fits(reader) {
        return Err(Refusal::Shown);
    }
    Ok(())
}

// ---- the call
// An input gets another route, or none: what it read is forgotten, its lags are measured anew, and the new flow opens.
pub fn route(
    inputs: Inputs,
    input: usize,
    wanted: Option<Source>,
    time: u64,
    world: World,
    lists: &mut AllLists<'_>,
    commands: &mut [u32],
) -> Result<Inputs, Refusal>
    ensures left { left_inputs inputs result (lists_lent lists.new) commands.new ≡ route_reply inputs (lists_lent lists.old) commands.old input wanted time world }
    ensures same { SameLists lists.old lists.new }
{
    check_route(
        inputs,
        input,
        wanted,
        time,
        world,
        lists.view(),
        commands.len(),
    )?;
    let known = steps::enrolled_for(inputs, wanted);
    let new = steps::route_for(known, wanted);
    let slot = inputs_slots::slot_at(known, input);
    commands.fill(0);
    let old = slot.route;
    if steps::equal_route(new, old) {
        return Ok(known);
    }
    let mut sent = Commands {
        words: commands,
        used: 0,
    };
    steps::announce(input, new, slot, &mut sent);
    let changed = steps::routed_slot(new, time, slot);
    let all = inputs_clear::inner::clear(known, input, changed, lists);
    Ok(steps::open_for(new, input, time, world, all, &mut sent))
}
