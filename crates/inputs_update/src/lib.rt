// What the host changes of an input's delay (document 01, "Supervision"): its kind, and a proposal that is confirmed.
#![tactic(auto)]

ghost use Rattle.std.specs.Prelude.{◌≡◌};
ghost use Rattle.refusals.specs.Numbers.{number_in};
ghost use Rattle.rules_record.specs.Lending.{lists_lent, lists_seen, SameLists};
ghost use Rattle.rules_calls.specs.Update.{kind_of};
ghost use Rattle.rules_calls.specs.UpdateChecks.{manual_fits, kind_fits, desk_limit, desk_fits, manual_number, update_number};
ghost use Rattle.rules_record.specs.Reply.{left_inputs};
ghost use Rattle.rules_calls.specs.UpdateReply.{update_reply, confirm_reply};

use refusals::Refusal;
use rules_calls::DelaySetting;
use rules_record::{AllLists, AllView, ExtraDelay, Inputs};

mod steps;

// The longest delay that the listening desk sets, in samples, where the maximum is not smaller.
const DESK_REACH: u32 = 2_400;

// ---- the checks
// Is a manual delay from 0 to the largest (check 12)?
fn manual_fits(delay: f64, maximum: u32) -> bool
    ensures { result ≡ manual_fits delay maximum }
{
    delay >= 0.0 && delay <= doubles::ms(maximum)
}

fn kind_fits(kind: ExtraDelay, maximum: u32) -> bool
    ensures { result ≡ kind_fits kind maximum }
{
    let ExtraDelay::Ms(delay) = kind else {
        return true;
    };
    manual_fits(delay, maximum)
}

fn desk_limit(maximum: u32) -> u32
    ensures { result ≡ desk_limit maximum }
{
    DESK_REACH.min(maximum)
}

// Is a delay of the desk at most its limit (check 21)?
fn desk_fits(setting: DelaySetting, maximum: u32) -> bool
    ensures { result ≡ desk_fits setting maximum }
{
    match setting {
        DelaySetting::Auto(_) | DelaySetting::Ms(_) => true,
        DelaySetting::Desk(delay) => delay <= doubles::ms(desk_limit(maximum)),
    }
}

// The kind that is stored: the record keeps no sender.
fn kind_of(setting: DelaySetting) -> ExtraDelay
    ensures { result ≡ kind_of setting }
{
    match setting {
        DelaySetting::Auto(tag) => ExtraDelay::Auto(tag),
        DelaySetting::Ms(delay) => ExtraDelay::Ms(delay),
        DelaySetting::Desk(delay) => ExtraDelay::Ms(delay),
    }
}

// Checks 12 and 21.
fn check_manual(setting: DelaySetting, maximum: u32) -> Result<(), Refusal>
    ensures { number_in result ≡ manual_number setting maximum }
{
    if !kind_fits(kind_of(setting), maximum) {
        return Err(Refusal::ManualDelay);
    }
    if !desk_fits(setting, maximum) {
        return Err(Refusal::DeskDelay);
    }
    Ok(())
}

fn check_update(
    inputs: Inputs,
    input: usize,
    setting: DelaySetting,
    time: u64,
    lists: AllView<'_>,
    words: usize,
) -> Result<(), Refusal>
    ensures { number_in result ≡ update_number inputs (lists_seen lists.entry) words input setting time }
{
    inputs_checks::check_input(inputs, input, time, lists, words)?;
    let policy = inputs.policy;
    check_manual(setting, policy.delay_max)
}

// ---- the calls
// An input gets another kind of delay: a manual one is sent, an automatic one starts to measure anew.
pub fn update(
    inputs: Inputs,
    input: usize,
    setting: DelaySetting,
    time: u64,
    lists: &mut AllLists<'_>,
    commands: &mut [u32],
) -> Result<Inputs, Refusal>
    ensures left { left_inputs inputs result (lists_lent lists.new) commands.new ≡ update_reply inputs (lists_lent lists.old) commands.old input setting time }
    ensures same { SameLists lists.old lists.new }
{
    check_update(inputs, input, setting, time, lists.view(), commands.len())?;
    let kind = kind_of(setting);
    let slot = steps::with_kind(inputs_slots::slot_at(inputs, input), kind);
    let ExtraDelay::Ms(delay) = kind else {
        commands.fill(0);
        return Ok(inputs_clear::inner::clear(inputs, input, slot, lists));
    };
    Ok(steps::delay_set(inputs, input, slot, doubles::samples(delay), time, commands))
}

// The proposed delay of an input is set.
pub fn confirm_delay(
    inputs: Inputs,
    input: usize,
    time: u64,
    lists: AllView<'_>,
    commands: &mut [u32],
) -> Result<Inputs, Refusal>
    ensures { left_inputs inputs result (lists_seen lists.entry) commands.new ≡ confirm_reply inputs (lists_seen lists.entry) commands.old input time }
{
    inputs_checks::check_input(inputs, input, time, lists, commands.len())?;
    let slot = inputs_slots::slot_at(inputs, input);
    let proposed = slot.proposed;
    let Some(delay) = proposed else {
        return Err(Refusal::NoProposal);
    };
    Ok(steps::delay_set(inputs, input, steps::taken(slot), delay, time, commands))
}
