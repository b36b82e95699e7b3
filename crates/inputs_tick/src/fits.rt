// Checks 10 and 11 of a tick, for a record and lists that checks 1 to 6 let through.
ghost use Rattle.std.specs.Prelude.{◌≡◌, ℕ, ◌+◌, ◌*◌, ◌≤◌, List, length};
ghost use Rattle.rules_window.specs.Checks.{room_for};
ghost use Rattle.rules_record.specs.Inputs.{slot_at};
ghost use Rattle.rules_record.specs.Lent.{lists, window_of};
ghost use Rattle.rules_tick.specs.TickChecks.{look_fits, looks_fit, lags_fit, rooms_fit};
ghost use Rattle.rules_tick.specs.TickAsked.{RoomsAsked};

use lag_window::LagWindow;
use rules_record::Inputs;
use rules_tick::Look;

// Is the applied delay at most the maximum, and has the reader at most 64 channels (check 10)?
#[tactic(auto, unfolding(rules_tick::specs::TickChecks::look_fits, base::specs::Choice::both))]
fn look_fits(look: Look, maximum: u32) -> bool
    ensures { result ≡ look_fits maximum look }
{
    look.applied <= maximum && inputs_try_open::reader_fits(look.world.reader)
}

pub(crate) fn looks_fit(inputs: Inputs, looks: [Look; 16]) -> bool
    requires { inputs.count ≤ 16 }
    ensures { result ≡ looks_fit inputs looks }
{
    let policy = inputs.policy;
    for look in &looks[..inputs.count] {
        if !look_fits(*look, policy.delay_max) {
            return false;
        }
    }
    true
}

// Do the lag counts add up to the lags (check 10)? They are taken from the lags one by one: their sum need not fit a word.
pub(crate) fn lags_fit(inputs: Inputs, looks: [Look; 16], lags: &[u32]) -> bool
    requires { inputs.count ≤ 16 }
    ensures { result ≡ lags_fit inputs looks lags.now }
{
    let mut left = lags.len();
    for look in &looks[..inputs.count] {
        if left < look.lags {
            return false;
        }
        left -= look.lags;
    }
    left == 0
}

// Does the newest total of input i take so many lags (check 11)? The test reads no counts.
fn room_fits(
    inputs: Inputs,
    i: usize,
    time: u64,
    lags: usize,
    starts: &[u64],
    totals: &[u64],
) -> bool
    requires { ((slot_at inputs i).lag_seconds ≤ 11) × (i * 11 + 11 ≤ length starts.now) × (i * 11 + 11 ≤ length totals.now) }
    ensures { (counts sums times peaks : List ℕ) → result ≡ room_for time lags (window_of inputs (lists starts.now totals.now counts sums times peaks) i) }
{
    let slot = inputs_slots::slot_at(inputs, i);
    let window = LagWindow {
        seconds: slot.lag_seconds,
        buckets: 0,
        width: inputs.width,
    };
    inputs_window::inner::room(window, i, time, lags, starts, totals)
}

pub(crate) fn rooms_fit(
    inputs: Inputs,
    looks: [Look; 16],
    time: u64,
    starts: &[u64],
    totals: &[u64],
) -> bool
    requires { RoomsAsked inputs (length starts.now) (length totals.now) }
    ensures { (counts sums times peaks : List ℕ) → result ≡ rooms_fit inputs (lists starts.now totals.now counts sums times peaks) looks time }
{
    for (i, look) in looks[..inputs.count].iter().enumerate() {
        if !room_fits(inputs, i, time, look.lags, starts, totals) {
            return false;
        }
    }
    true
}
