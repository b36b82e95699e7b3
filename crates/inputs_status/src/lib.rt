// What the host reads of one input (document 01, "Supervision"): its status, whether it has the channels, whether its delay has settled.
#![tactic(auto)]

ghost use Rattle.std.specs.Prelude.{◌≡◌};
ghost use Rattle.refusals.specs.Numbers.{number_in};
ghost use Rattle.rules_record.specs.Sized.{Sized};
ghost use Rattle.rules_record.specs.Lending.{lists_seen};
ghost use Rattle.rules_calls.specs.StatusChecks.{status_number, channels_number, settled_number};
ghost use Rattle.rules_calls.specs.Status.{told, status_reply};
ghost use Rattle.rules_calls.specs.HasChannels.{told as answer_told, has_channels_reply};
ghost use Rattle.rules_calls.specs.Settled.{settled_slot, settled_reply};

use refusals::Refusal;
use rules_calls::InputStatus;
use rules_record::{AllView, Inputs, Output, Slot, State};

mod shown;

// The most channels of a reader (check 10), as in inputs_try_open: each rule that asks it names the number.
const CHANNELS: u32 = 64;

// ---- the checks
#[tactic(auto, unfolding(rules_calls::specs::StatusChecks::status_number, base::specs::Choice::ask))]
fn check_status(
    inputs: Inputs,
    input: usize,
    applied: u32,
    channels: u32,
    lists: AllView<'_>,
) -> Result<(), Refusal>
    ensures value { number_in result ≡ status_number inputs (lists_seen lists.entry) input applied channels }
    ensures sized { Sized inputs }
{
    inputs_checks::check_known(inputs, input, lists, Output::Absent)?;
    let policy = inputs.policy;
    if policy.delay_max < applied {
        return Err(Refusal::Shown);
    }
    if CHANNELS < channels {
        return Err(Refusal::Shown);
    }
    Ok(())
}

#[tactic(auto, unfolding(rules_calls::specs::StatusChecks::channels_number, base::specs::Choice::ask))]
fn check_channels(
    inputs: Inputs,
    input: usize,
    channels: u32,
    lists: AllView<'_>,
) -> Result<(), Refusal>
    ensures { number_in result ≡ channels_number inputs (lists_seen lists.entry) input channels }
{
    inputs_checks::check_known(inputs, input, lists, Output::Absent)?;
    if CHANNELS < channels {
        return Err(Refusal::Shown);
    }
    Ok(())
}

#[tactic(auto, unfolding(rules_calls::specs::StatusChecks::settled_number, base::specs::Choice::ask))]
fn check_settled(inputs: Inputs, input: usize, time: u64, lists: AllView<'_>) -> Result<(), Refusal>
    ensures { number_in result ≡ settled_number inputs (lists_seen lists.entry) input time }
{
    inputs_checks::check_known(inputs, input, lists, Output::Absent)?;
    if base::TIME_LIMIT < time {
        return Err(Refusal::Time);
    }
    Ok(())
}

// ---- the calls
// What the host shows of an input, given the delay that the engine applies and the channels of its reader. Nothing is dropped.
pub fn status(
    inputs: Inputs,
    input: usize,
    applied: u32,
    channels: u32,
    lists: AllView<'_>,
) -> Result<InputStatus, Refusal>
    ensures { told result ≡ status_reply inputs (lists_seen lists.entry) input applied channels }
{
    check_status(inputs, input, applied, channels, lists)?;
    Ok(shown::status(inputs, input, applied, channels, lists.sums, lists.peaks))
}

// Is the input running with at least the wanted channels?
pub fn has_channels(
    inputs: Inputs,
    input: usize,
    channels: u32,
    wanted: usize,
    lists: AllView<'_>,
) -> Result<bool, Refusal>
    ensures { answer_told result ≡ has_channels_reply inputs (lists_seen lists.entry) input channels wanted }
{
    check_channels(inputs, input, channels, lists)?;
    let slot = inputs_slots::slot_at(inputs, input);
    Ok(slot.state == State::Running && wanted <= channels as usize)
}

// Running, and neither a SetDelay nor a SetInput within the last hold: the last of each is at least hold old, or there never was one.
#[tactic(auto, using(rules_record::proofs::Derived::state_eq), unfolding(rules_calls::specs::Settled::settled_slot, base::specs::Choice::both))]
fn settled_slot(slot: Slot, hold: u64, time: u64) -> bool
    ensures { result ≡ settled_slot slot hold time }
{
    slot.state == State::Running
        && delay_hold::held_since(slot.last_set, hold, time)
        && delay_hold::held_since(slot.last_input, hold, time)
}

// Is the input running, with neither a SetDelay nor a SetInput sent to it within the last hold?
pub fn settled(inputs: Inputs, input: usize, time: u64, lists: AllView<'_>) -> Result<bool, Refusal>
    ensures { answer_told result ≡ settled_reply inputs (lists_seen lists.entry) input time }
{
    check_settled(inputs, input, time, lists)?;
    let slot = inputs_slots::slot_at(inputs, input);
    let policy = inputs.policy;
    Ok(settled_slot(slot, policy.hold, time))
}
