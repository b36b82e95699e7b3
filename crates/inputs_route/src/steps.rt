// The parts of the call: the route that is wanted beside the one that was, what changes in the slot, and what is sent.
ghost use Rattle.std.specs.Prelude.{◌≡◌, ◌<◌, ◌++◌};
ghost use Rattle.inputs_commands.specs.Sending.{Room, CanSend, CanOpen, Appends, Does};
ghost use Rattle.rules_calls.specs.Route.{enrolled_for, route_for, equal_route, other_flow, starts_over, forgetting, zeroing, started_over, state_for, routed_slot, opened_for};

use inputs_commands::{Command, Commands};
use rules_calls::Source;
use rules_record::{Inputs, Route, Slot, State};
use rules_routing::World;

// ---- the route that is wanted
// The flow is enrolled, where one is given.
pub(crate) fn enrolled_for(inputs: Inputs, wanted: Option<Source>) -> Inputs
    ensures { result ≡ enrolled_for inputs wanted }
{
    wanted.map_or(inputs, |source| inputs_flows::enrol(inputs, source.flow))
}

pub(crate) fn route_for(inputs: Inputs, wanted: Option<Source>) -> Option<Route>
    ensures { result ≡ route_for inputs wanted }
{
    wanted.map(|source| Route {
        domain: source.domain,
        flow: inputs_flows::find(inputs, source.flow),
    })
}

// ---- beside the route that was
// Is this the route that a routed input has?
pub(crate) fn equal_route(new: Option<Route>, old: Option<Route>) -> bool
    ensures { result ≡ equal_route new old }
{
    new.is_some() && new == old
}

// Is it another flow? The same one in another domain is not.
#[tactic(auto, unfolding(rules_calls::specs::Route::other_flow))]
fn other_flow(new: Option<Route>, old: Option<Route>) -> bool
    ensures { result ≡ other_flow new old }
{
    match (new, old) {
        (Some(to), Some(from)) => to.flow != from.flow,
        (None, None) => false,
        _ => true,
    }
}

// Does an automatic delay start over at 0?
#[tactic(auto, unfolding(rules_calls::specs::Route::starts_over, base::specs::Choice::both))]
fn starts_over(new: Option<Route>, slot: Slot) -> bool
    ensures { result ≡ starts_over new slot }
{
    other_flow(new, slot.route) && inputs_slots::automatic(slot) && slot.delay != 0
}

// ---- the slot
fn started_over(new: Option<Route>, time: u64, slot: Slot) -> Slot
    ensures { result ≡ started_over new time slot }
{
    if starts_over(new, slot) {
        return Slot {
            delay: 0,
            last_set: Some(time),
            proposed: None,
            ..slot
        };
    }
    slot
}

fn state_for(new: Option<Route>) -> State
    ensures { result ≡ state_for new }
{
    match new {
        None => State::Unrouted,
        Some(_) => State::Waiting,
    }
}

// The slot with its new route, before it opens.
pub(crate) fn routed_slot(new: Option<Route>, time: u64, slot: Slot) -> Slot
    ensures { result ≡ routed_slot new time slot }
{
    let over = started_over(new, time, slot);
    Slot {
        state: state_for(new),
        route: new,
        inode: None,
        ..over
    }
}

// ---- the commands
// What an old route read is forgotten.
fn forget(i: usize, old: Option<Route>, commands: &mut Commands<'_>)
    requires { CanSend i commands.old }
    ensures { Appends 3 (forgetting i old) commands.old commands.new }
{
    if old.is_some() {
        commands.send(Command::ClearInput {
            input: i,
            forget: true,
        });
    }
}

// What is sent before the new flow opens.
pub(crate) fn announce(i: usize, new: Option<Route>, slot: Slot, commands: &mut Commands<'_>)
    requires { Room 6 commands.old × (i < 16) }
    ensures { Appends 6 (forgetting i slot.route ++ zeroing i new slot) commands.old commands.new }
{
    let old = slot.route;
    forget(i, old, commands);
    if starts_over(new, slot) {
        commands.send(Command::SetDelay {
            input: i,
            samples: 0,
        });
    }
}

// The new flow opens, where there is one.
pub(crate) fn open_for(
    new: Option<Route>,
    i: usize,
    time: u64,
    world: World,
    inputs: Inputs,
    commands: &mut Commands<'_>,
) -> Inputs
    requires { CanOpen inputs i commands.old }
    ensures { Does 6 (opened_for new i time world inputs) result commands.old commands.new }
{
    if new.is_some() {
        return inputs_try_open::inner::try_open(inputs, i, time, world, commands);
    }
    inputs
}
