// The remembered delays that the host loaded: 16 flow bytes to each, a flow named twice keeps the last.
ghost use Rattle.std.specs.Prelude.{◌≡◌, ◌+◌, ◌*◌, ◌<◌, ◌≤◌, true, length};
ghost use Rattle.std.specs.Option.{is_some};
ghost use Rattle.rules_record.specs.declared.Inputs.{Inputs};
ghost use Rattle.rules_calls.specs.NewLoading.{loaded_flow, loaded_one, loaded_below, load_fits};

use rules_record::{Flow, Inputs};

// The flow of loaded delay k.
fn flow_of(bytes: &[u8], k: usize) -> Flow
    requires { k * 16 + 16 ≤ length bytes.now }
    ensures { result ≡ loaded_flow bytes.now k }
{
    inputs_flows::inner::flow_from(bytes, k * 16)
}

// The flow is enrolled, and the delay is remembered for it.
fn load_one(inputs: Inputs, flow: Flow, delay: u32) -> Inputs
    ensures { result ≡ loaded_one flow delay inputs }
{
    let all = inputs_flows::enrol(inputs, flow);
    let place = inputs_flows::find(all, flow);
    inputs_flows::keep(all, place, delay)
}

// Each flow in its turn, until one has no room (check 9).
pub(crate) fn load(inputs: Inputs, bytes: &[u8], delays: &[u32]) -> Option<Inputs>
    requires { length bytes.now ≡ length delays.now * 16 }
    ensures fits_value { is_some result ≡ load_fits (length delays.now) bytes.now delays.now inputs }
    ensures inputs_value { (all : Inputs) → result ≡ Some all → all ≡ loaded_below (length delays.now) bytes.now delays.now inputs }
{
    let mut all = inputs;
    for (k, delay) in delays.iter().enumerate() {
        let flow = flow_of(bytes, k);
        if !inputs_flows::has_room(all, flow) {
            return None;
        }
        all = load_one(all, flow, *delay);
    }
    Some(all)
}
