// What a status shows of one input, for a record and lists that the checks let through.
ghost use Rattle.std.specs.Prelude.{◌≡◌, ℕ, ◌*◌, ◌≤◌, List, length};
ghost use Rattle.base.specs.Lists.{part};
ghost use Rattle.rules_window.specs.Quantile.{found};
ghost use Rattle.rules_window.specs.ColumnSums.{as_one_second};
ghost use Rattle.rules_record.specs.Inputs.{slot_at};
ghost use Rattle.rules_record.specs.Lent.{lists};
ghost use Rattle.rules_record.specs.Facts.{OwnSums};
ghost use Rattle.rules_calls.specs.Status.{source_of, channels_shown, proposed_ms, lag_in_ms, worst_ms, arrival_of, arrival_in, shown, status_of};
ghost use Rattle.inputs_status.specs.StatusAsked.{Countable, Showable};

use delay_hold::DelayHold;
use doubles::ms;
use lag_window::LagWindow;
use rules_calls::{ArrivalLag, InputStatus, Source};
use rules_record::{Inputs, Route, Slot, State};

// No lag is above this: a quantile without a limit.
const NO_LIMIT: u32 = 4_294_967_295;

fn source_of(inputs: Inputs, to: Option<Route>) -> Option<Source>
    ensures { result ≡ source_of inputs to }
{
    let route = to?;
    Some(Source {
        flow: inputs_flows::flow_at(inputs, route.flow),
        domain: route.domain,
    })
}

// 0 where the input is Unrouted.
#[tactic(auto, using(rules_record::proofs::Derived::state_eq), unfolding(rules_calls::specs::Status::channels_shown))]
fn channels_shown(state: State, channels: u32) -> u32
    ensures { result ≡ channels_shown state channels }
{
    if state == State::Unrouted {
        return 0;
    }
    channels
}

// A proposal, or a lag, where there is one.
fn in_ms(samples: Option<u32>) -> Option<f64>
    ensures lag { result ≡ lag_in_ms samples }
    ensures proposed { result ≡ proposed_ms samples }
{
    samples.map(ms)
}

// The greatest of an automatic input's peaks, which stand first in its lags.
fn worst_ms(slot: Slot, peaks: &[u32]) -> Option<f64>
    requires { slot.hold.peaks ≤ length peaks.now }
    ensures { result ≡ worst_ms slot peaks.now }
{
    if !inputs_slots::automatic(slot) {
        return None;
    }
    let hold = slot.hold;
    in_ms(delay_hold::inner::worst(&peaks[..hold.peaks]))
}

// The quantiles, where all three are there.
fn arrival_of(half: Option<u32>, high: Option<u32>, highest: Option<u32>) -> Option<ArrivalLag>
    ensures { result ≡ arrival_of (found half) (found high) (found highest) }
{
    Some(ArrivalLag {
        p50: ms(half?),
        p99: ms(high?),
        p999: ms(highest?),
    })
}

// The quantiles of the lags of input i, without a limit, by its row of sums alone.
fn arrival(window: LagWindow, i: usize, sums: &[u64]) -> Option<ArrivalLag>
    requires { Countable window i sums.now }
    ensures { result ≡ arrival_in (as_one_second window.buckets window.width (part (i * window.buckets) window.buckets sums.now)) }
{
    let half = inputs_window::inner::quantile_upto(window, i, 0.5, NO_LIMIT, sums);
    let high = inputs_window::inner::quantile_upto(window, i, 0.99, NO_LIMIT, sums);
    let highest = inputs_window::inner::quantile_upto(window, i, 0.999, NO_LIMIT, sums);
    arrival_of(half, high, highest)
}

// The status of input i, from its row of sums and its peaks; the contract says it of every list of counts that has these sums.
pub(crate) fn status(
    inputs: Inputs,
    i: usize,
    applied: u32,
    channels: u32,
    sums: &[u64],
    peaks: &[u32],
) -> InputStatus
    requires { Showable inputs i applied sums.now peaks.now }
    ensures { (starts totals counts times : List ℕ) → OwnSums inputs (lists starts totals counts sums.now times peaks.now) i (slot_at inputs i) → shown result ≡ status_of inputs (lists starts totals counts sums.now times peaks.now) i applied channels }
{
    let slot = inputs_slots::slot_at(inputs, i);
    let policy = inputs.policy;
    let config = slot.config;
    let state = slot.state;
    let to = slot.route;
    let extra_delay = config.extra_delay;
    let source = source_of(inputs, to);
    let window = inputs_window::inner::window_in(policy, inputs.width, slot);
    let arrival_lag_ms = arrival(window, i, sums);
    let from = i * DelayHold::PLACES;
    let end = from + DelayHold::PLACES;
    let worst_lag_ms = worst_ms(slot, &peaks[from..end]);
    InputStatus {
        state,
        source,
        channels: channels_shown(state, channels),
        extra_delay,
        extra_delay_ms: ms(applied),
        effective_delay_ms: ms(policy.read_offset + applied),
        proposed_delay_ms: in_ms(slot.proposed),
        lag_ms: ms(slot.last_lag),
        arrival_lag_ms,
        worst_lag_ms,
        delay_changes: slot.delay_changes,
        late_events: slot.late_events,
        reopens: slot.reopens,
    }
}
