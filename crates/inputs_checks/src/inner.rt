// Check 6 of a whole supervisor, for a record and lists that checks 1 to 5 let through.
ghost use Rattle.std.specs.Prelude.{◌≡◌, ◌+◌, ◌*◌, ◌≤◌, length};
ghost use Rattle.base.specs.Limits.{buckets_limit};
ghost use Rattle.policy.specs.Settings.{Sound};
ghost use Rattle.rules_window.specs.Parts.{PartsIn};
ghost use Rattle.rules_record.specs.declared.Inputs.{Inputs};
ghost use Rattle.rules_record.specs.Inputs.{slot_at};
ghost use Rattle.rules_record.specs.Lending.{lists_seen};
ghost use Rattle.rules_record.specs.Lent.{buckets_for};
ghost use Rattle.inputs_window.specs.Windows.{window_in, all_windows};
ghost use Rattle.rules_record.specs.WholeRecord.{whole_input, whole_inputs, whole_record};
ghost use Rattle.rules_record.specs.Checks.{lists_fit, output_fits, Fitting};

use delay_hold::{DelayHold, HoldView};
use lag_window::LagWindow;
use policy::DelayPolicy;
use rules_record::{AllView, Inputs, Output, Slot};

// Has each lent list its exact length, for n inputs and so many buckets a second (check 5)?
#[tactic(auto, unfolding(rules_record::specs::Checks::lists_fit, base::specs::Choice::both))]
pub fn lists_fit(n: usize, buckets: usize, lists: AllView<'_>) -> bool
    requires { (n ≤ 16) × (buckets ≤ buckets_limit) }
    ensures { result ≡ lists_fit n buckets (lists_seen lists.entry) }
{
    lists.starts.len() == n * LagWindow::SECONDS
        && lists.totals.len() == n * LagWindow::SECONDS
        && lists.counts.len() == n * (LagWindow::SECONDS * buckets)
        && lists.sums.len() == n * buckets
        && lists.times.len() == n * DelayHold::PLACES
        && lists.peaks.len() == n * DelayHold::PLACES
}

// The list that a call writes to has its exact length: commands 12 words an input, bytes as many as the call asks (check 5).
pub fn output_fits(n: usize, output: Output) -> bool
    requires { n ≤ 16 }
    ensures { result ≡ output_fits n output }
{
    match output {
        Output::Absent => true,
        Output::Words(words) => words == n * 12,
        Output::Bytes(bytes, exact) => bytes == exact,
    }
}

// Input i: its seconds with their sums, its peaks with seed and timer, and the rest of its slot. Each count is read once, but in a window with a count of 2^20 or more. Only what is read is handed on:
// the record goes by value, and a whole one would be copied for each input.
fn whole_input(
    policy: DelayPolicy,
    width: u32,
    flows: usize,
    i: usize,
    slot: Slot,
    lists: AllView<'_>,
) -> bool
    requires sound { Sound policy }
    requires parts_in { PartsIn i (all_windows (window_in policy width slot) (lists_seen lists)) }
    requires width_in_bounds { i * buckets_for policy width + buckets_for policy width ≤ length lists.sums.now }
    requires i_in_bounds { (i * 600 + 600 ≤ length lists.times.now) × (i * 600 + 600 ≤ length lists.peaks.now) }
    ensures { (s : Inputs) → (policy ≡ s.policy) → (width ≡ s.width) → (flows ≡ s.flow_count) → (slot ≡ slot_at s i) → result ≡ whole_input s (lists_seen lists.entry) i }
{
    let window = inputs_window::inner::window_in(policy, width, slot);
    if !inputs_window::inner::whole(window, i, lists) {
        return false;
    }
    let hold = slot.hold;
    let a = i * DelayHold::PLACES;
    let e = a + DelayHold::PLACES;
    let own = HoldView {
        times: &lists.times[a..e],
        lags: &lists.peaks[a..e],
    };
    if !delay_hold::inner::whole(hold, policy, width, own) {
        return false;
    }
    inputs_places::whole_slot(policy.delay_max, flows, slot)
}

// An input is whole, and a slot after the inputs is not in use. By their numbers: the rule asks all 16 places, and input i has part i of each list.
fn whole_inputs(inputs: Inputs, lists: AllView<'_>) -> bool
    requires { Fitting inputs (lists_seen lists) }
    ensures { result ≡ whole_inputs inputs (lists_seen lists.entry) }
{
    let policy = inputs.policy;
    for i in 0..inputs.count {
        let slot = inputs.slots[i];
        if !whole_input(policy, inputs.width, inputs.flow_count, i, slot, lists) {
            return false;
        }
    }
    for i in inputs.count..16 {
        let slot = inputs.slots[i];
        if !inputs_places::unused_slot(slot) {
            return false;
        }
    }
    true
}

// Is the record whole?
#[tactic(auto, unfolding(rules_record::specs::WholeRecord::whole_record, base::specs::Choice::both))]
pub fn whole(inputs: Inputs, lists: AllView<'_>) -> bool
    requires { Fitting inputs (lists_seen lists) }
    ensures { result ≡ whole_record inputs (lists_seen lists.entry) }
{
    whole_inputs(inputs, lists)
        && inputs_places::whole_flows(inputs)
        && inputs_places::whole_instances(inputs)
}
