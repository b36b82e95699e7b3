// The flow table: 64 places, each flow at one place for good, with the automatic delay that it had last.
#![tactic(auto)]

ghost use Rattle.std.specs.Prelude.{◌≡◌};
ghost use Rattle.rules_record.specs.Flows.{known, flow_place, distinct_flows, admits, flow_at, enrolled, recalled, kept, remembered, remembered_for};

use rules_record::{Flow, FlowEntry, Inputs, Slot};

// Functions that ask something of their caller; the crates above use them where the bytes are there.
pub mod inner;

// How many places of the table are in use; there are 64.
#[tactic(auto, unfolding(rules_record::specs::Flows::known))]
fn places(inputs: Inputs) -> usize
    ensures { result ≡ known inputs }
{
    inputs.flow_count.min(64)
}

// The flow at a place.
pub fn flow_at(inputs: Inputs, place: usize) -> Flow
    ensures { result ≡ flow_at inputs place }
{
    if place < 64 {
        return inputs.flows[place].flow;
    }
    Flow { high: 0, low: 0 }
}

// The flow's place, or the number of places in use where it has none.
// A place either way: where the flow stands, or where `enrol` puts it; the rules know one number (flow_place).
pub fn find(inputs: Inputs, flow: Flow) -> usize
    ensures { result ≡ flow_place inputs flow }
{
    let n = places(inputs);
    let table = &inputs.flows[..n];
    table
        .iter()
        .position(|entry| entry.flow == flow)
        .unwrap_or(n)
}

// Does the table hold no flow twice? As inputs_instances asks of its keys: one function over a key owes a closure's contract for four lines.
pub fn distinct(inputs: Inputs) -> bool
    ensures { result ≡ distinct_flows inputs }
{
    let n = places(inputs);
    let table = &inputs.flows[..n];
    for (i, entry) in table.iter().enumerate() {
        if table[..i].iter().any(|earlier| earlier.flow == entry.flow) {
            return false;
        }
    }
    true
}

// Is the flow known, or is there room for it?
#[tactic(auto, unfolding(rules_record::specs::Flows::admits))]
pub fn has_room(inputs: Inputs, flow: Flow) -> bool
    ensures { result ≡ admits inputs flow }
{
    let place = find(inputs, flow);
    place < inputs.flow_count || inputs.flow_count < 64
}

// The table with this flow, where it is new and there is room.
pub fn enrol(inputs: Inputs, flow: Flow) -> Inputs
    ensures { result ≡ enrolled inputs flow }
{
    let place = find(inputs, flow);
    if place < inputs.flow_count {
        return inputs;
    }
    if 64 <= place {
        return inputs;
    }
    let mut all = inputs;
    all.flows[place] = FlowEntry {
        flow,
        remembered: None,
    };
    all.flow_count = place + 1;
    all
}

// The delay that the flow had last.
pub fn recall(inputs: Inputs, place: usize) -> Option<u32>
    ensures { result ≡ recalled inputs place }
{
    if place < 64 {
        return inputs.flows[place].remembered;
    }
    None
}

// The delay is stored for the flow; the unsaved mark stays.
pub fn keep(inputs: Inputs, place: usize, delay: u32) -> Inputs
    ensures { result ≡ kept inputs place delay }
{
    if place < 64 {
        let mut all = inputs;
        all.flows[place].remembered = Some(delay);
        return all;
    }
    inputs
}

// The delay is remembered for the flow; the table is unsaved where that differs from what it held.
pub fn remember(inputs: Inputs, place: usize, delay: u32) -> Inputs
    ensures { result ≡ remembered inputs place delay }
{
    let last = recall(inputs, place);
    let mut all = keep(inputs, place, delay);
    if last != Some(delay) {
        all.unsaved = true;
        return all;
    }
    all
}

// The same for the flow of a routed input whose delay is automatic.
pub fn remember_for(inputs: Inputs, slot: Slot, delay: u32) -> Inputs
    ensures { result ≡ remembered_for inputs slot delay }
{
    let to = slot.route;
    let Some(route) = to else {
        return inputs;
    };
    if inputs_slots::automatic(slot) {
        return remember(inputs, route.flow, delay);
    }
    inputs
}
