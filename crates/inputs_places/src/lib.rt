// Check 6 of what stands in the record itself: an input's slot, a place that is not in use, the two tables.
#![tactic(auto)]

ghost use Rattle.std.specs.Prelude.{◌≡◌, true, ltb};
ghost use Rattle.base.specs.Choice.{pick};
ghost use Rattle.rules_record.specs.WholePlaces.{proposal_fits, route_fits, whole_slot, unused_parts, unused_numbers, unused_slot, unused_entry, entries_fit, whole_flows, unused_key, keys_fit, whole_instances};

use delay_hold::moment_timely;
use rules_record::{Flow, FlowEntry, Inputs, Instance, Route, Slot, State};

// Counters stay below this: 2^63.
const COUNTER_LIMIT: u64 = 9_223_372_036_854_775_808;

fn proposal_fits(proposed: Option<u32>, maximum: u32) -> bool
    ensures { result ≡ proposal_fits proposed maximum }
{
    proposed.is_none_or(|delay| delay <= maximum)
}

// Unrouted exactly if there is no route, and a route to one of the n flows that are known.
#[tactic(auto, using(rules_record::proofs::Derived::state_eq, rules_record::proofs::Derived::state_routed), unfolding(rules_record::specs::WholePlaces::route_fits, base::specs::Choice::both))]
fn route_fits(to: Option<Route>, state: State, n: usize) -> bool
    ensures { result ≡ route_fits to state n }
{
    let Some(route) = to else {
        return state == State::Unrouted;
    };
    route.flow < n && state != State::Unrouted
}

#[tactic(auto, unfolding(rules_record::specs::WholePlaces::whole_slot, base::specs::Choice::both))]
pub fn whole_slot(maximum: u32, n: usize, slot: Slot) -> bool
    ensures { result ≡ whole_slot maximum n slot }
{
    slot.delay <= maximum
        && proposal_fits(slot.proposed, maximum)
        && route_fits(slot.route, slot.state, n)
        && slot.reopens < COUNTER_LIMIT
        && slot.delay_changes < COUNTER_LIMIT
        && slot.late_events < COUNTER_LIMIT
        && slot.head_changed <= base::TIME_LIMIT
        && moment_timely(slot.last_set)
        && moment_timely(slot.last_input)
}

// Nothing is stored: automatic, Unrouted, with a hold that has decided nothing. Field by field, as the numbers below: a slot has no comparison of its own.
#[tactic(auto, using(crate::proofs::Empty::hold_empty), unfolding(rules_record::specs::WholePlaces::unused_parts, base::specs::Choice::both))]
fn unused_parts(slot: Slot) -> bool
    ensures { result ≡ unused_parts slot }
{
    inputs_slots::automatic(slot)
        && slot.state == State::Unrouted
        && slot.route.is_none()
        && slot.inode.is_none()
        && slot.proposed.is_none()
        && slot.hold == delay_hold::inner::fresh()
        && !slot.late_before
        && slot.last_set.is_none()
        && slot.last_input.is_none()
}

// Every number is zero.
#[tactic(auto, unfolding(rules_record::specs::WholePlaces::unused_numbers, base::specs::Choice::both))]
fn unused_numbers(slot: Slot) -> bool
    ensures { result ≡ unused_numbers slot }
{
    slot.last_head == 0
        && slot.head_changed == 0
        && slot.reopens == 0
        && slot.lag_seconds == 0
        && slot.last_lag == 0
        && slot.delay == 0
        && slot.delay_changes == 0
        && slot.late_events == 0
}

#[tactic(auto, unfolding(rules_record::specs::WholePlaces::unused_slot, base::specs::Choice::both))]
pub fn unused_slot(slot: Slot) -> bool
    ensures { result ≡ unused_slot slot }
{
    unused_parts(slot) && unused_numbers(slot)
}

// A place of the flow table, of which n are in use, is one of them, or empty.
#[tactic(auto, using(crate::proofs::Empty::entry_empty), unfolding(rules_record::specs::Flows::empty_entry))]
fn entry_fits(n: usize, place: usize, entry: FlowEntry) -> bool
    ensures { result ≡ pick (ltb place n) true (unused_entry entry) }
{
    if place < n {
        return true;
    }
    let empty = FlowEntry {
        flow: Flow { high: 0, low: 0 },
        remembered: None,
    };
    entry == empty
}

// The loop is here: handed on, the record would be copied for each place. keys_fit is like it: one function over a place owes a closure's contract for four lines.
fn entries_fit(inputs: Inputs) -> bool
    ensures { result ≡ entries_fit inputs }
{
    for (place, entry) in inputs.flows.iter().enumerate() {
        if !entry_fits(inputs.flow_count, place, *entry) {
            return false;
        }
    }
    true
}

#[tactic(auto, unfolding(rules_record::specs::WholePlaces::whole_flows, base::specs::Choice::both))]
pub fn whole_flows(inputs: Inputs) -> bool
    ensures { result ≡ whole_flows inputs }
{
    inputs.flow_count <= 64 && inputs_flows::distinct(inputs) && entries_fit(inputs)
}

// A place of the instance table, of which n are in use, holds an instance of one of the known flows, or is empty.
#[tactic(auto, unfolding(rules_record::specs::WholePlaces::unused_key, base::specs::Choice::both))]
fn key_fits(n: usize, known: usize, place: usize, key: Instance) -> bool
    ensures { result ≡ pick (ltb place n) (ltb key.flow known) (unused_key key) }
{
    if place < n {
        return key.flow < known;
    }
    key == Instance { flow: 0, inode: 0 }
}

fn keys_fit(inputs: Inputs) -> bool
    ensures { result ≡ keys_fit inputs }
{
    for (place, key) in inputs.instances.iter().enumerate() {
        if !key_fits(inputs.instance_count, inputs.flow_count, place, *key) {
            return false;
        }
    }
    true
}

#[tactic(auto, unfolding(rules_record::specs::WholePlaces::whole_instances, base::specs::Choice::both))]
pub fn whole_instances(inputs: Inputs) -> bool
    ensures { result ≡ whole_instances inputs }
{
    inputs.instance_count <= 17 && inputs_instances::distinct(inputs) && keys_fit(inputs)
}
