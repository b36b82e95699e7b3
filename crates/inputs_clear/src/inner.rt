// Over the slot of one input and its parts of the lists lent for all.
ghost use Rattle.std.specs.Prelude.{◌≡◌, ◌+◌, ◌*◌, ◌<◌, ◌≤◌, length, replicate};
ghost use Rattle.base.specs.Lists.{part, patched};
ghost use Rattle.delay_hold.specs.Next.{held, fresh_hold, cleared_hold};
ghost use Rattle.rules_record.specs.Lending.{lists_lent, SameLists};
ghost use Rattle.rules_record.specs.Checks.{Fitting};
ghost use Rattle.rules_record.specs.Effects.{silent};
ghost use Rattle.rules_routing.specs.Clear.{cleared};

use delay_hold::{DelayHold, HoldLists};
use rules_record::{AllLists, Inputs, Slot};

// A hold is cleared, on its own lists. They come one by one: a part that goes into a struct straight away is not followed back to its list.
fn clear_own(times: &mut [u64], lags: &mut [u32]) -> DelayHold
    ensures { held result times.new lags.new ≡ cleared_hold (held fresh_hold times.old lags.old) }
{
    let mut own = HoldLists { times, lags };
    delay_hold::inner::cleared(&mut own)
}

// Every place of the peaks of input i is written zero.
fn clear_hold(i: usize, times: &mut [u64], peaks: &mut [u32]) -> DelayHold
    requires { (i < 16) × (i * 600 + 600 ≤ length times.old) × (i * 600 + 600 ≤ length peaks.old) }
    ensures { held result times.new peaks.new ≡ held fresh_hold (patched (i * 600) 600 (replicate (length (part (i * 600) 600 times.old)) 0) times.old) (patched (i * 600) 600 (replicate (length (part (i * 600) 600 peaks.old)) 0) peaks.old) }
{
    let from = i * DelayHold::PLACES;
    let to = from + DelayHold::PLACES;
    clear_own(&mut times[from..to], &mut peaks[from..to])
}

// Input i has this slot, with its window and its hold cleared.
pub fn clear(inputs: Inputs, i: usize, slot: Slot, lists: &mut AllLists<'_>) -> Inputs
    requires fitting { Fitting inputs (lists_lent lists.old) }
    requires i_lt_count { i < inputs.count }
    ensures cleared { silent result (lists_lent lists.new) ≡ cleared i slot inputs (lists_lent lists.old) }
    ensures same { SameLists lists.old lists.new }
{
    let policy = inputs.policy;
    let before = inputs_window::inner::window_in(policy, inputs.width, slot);
    let window = inputs_window::inner::clear(before, i, lists);
    let hold = clear_hold(i, lists.times, lists.peaks);
    let changed = Slot {
        lag_seconds: window.seconds,
        hold,
        ..slot
    };
    inputs_slots::put_slot(inputs, i, changed)
}
