// The whole record of a supervisor with the lists lent for it: checks 1 to 8 of the calls (document 01, "The gatekeeper's questions"), 17 and 18 straight after 2.
#![tactic(auto)]

ghost use Rattle.std.specs.Prelude.{◌≡◌};
ghost use Rattle.refusals.specs.Numbers.{number_in};
ghost use Rattle.rules_record.specs.Sized.{Sized};
ghost use Rattle.rules_record.specs.Lending.{lists_seen};
ghost use Rattle.rules_record.specs.Checks.{inputs_allowed, pauses_allowed, record_number, input_number, timed_number};

use policy::DelayPolicy;
use refusals::Refusal;
use rules_record::{AllView, Inputs, Output};

// Functions that ask something of their caller; the crates above use them after their checks.
pub mod inner;

// Are there 1 to 16 inputs (check 1)?
#[tactic(auto, unfolding(rules_record::specs::Checks::inputs_allowed, base::specs::Choice::both))]
pub fn inputs_allowed(n: usize) -> bool
    ensures { result ≡ inputs_allowed n }
{
    1 <= n && n <= 16
}

// Are hold and stall at most 600 s, window 1 to 600 s (check 3)?
#[tactic(auto, unfolding(rules_record::specs::Checks::pauses_allowed, base::specs::Choice::both))]
pub fn pauses_allowed(policy: DelayPolicy, stall: u64) -> bool
    ensures { result ≡ pauses_allowed policy stall }
{
    policy.times_allowed() && stall <= base::SPAN_LIMIT
}

#[tactic(auto, unfolding(rules_record::specs::Checks::record_number, base::specs::Choice::ask))]
fn check_all(inputs: Inputs, lists: AllView<'_>, output: Output) -> Result<(), Refusal>
    ensures { number_in result ≡ record_number inputs (lists_seen lists.entry) output 0 }
{
    if !inputs_allowed(inputs.count) {
        return Err(Refusal::InputCount);
    }
    let policy = inputs.policy;
    buckets::check_ranges(policy.read_offset, policy.delay_max, inputs.width)?;
    if !pauses_allowed(policy, inputs.stall) {
        return Err(Refusal::Pause);
    }
    if !policy.margins_allowed() {
        return Err(Refusal::Margin);
    }
    let buckets = buckets::inner::buckets_of(policy.read_offset, policy.delay_max, inputs.width);
    if !inner::lists_fit(inputs.count, buckets, lists) {
        return Err(Refusal::ListLength);
    }
    if !inner::output_fits(inputs.count, output) {
        return Err(Refusal::ListLength);
    }
    if !inner::whole(inputs, lists) {
        return Err(Refusal::NotWhole);
    }
    Ok(())
}

// Checks 1 to 6. The record's tables have their places, as in every value of its type.
pub fn check_record(inputs: Inputs, lists: AllView<'_>, output: Output) -> Result<(), Refusal>
    ensures value { number_in result ≡ record_number inputs (lists_seen lists.entry) output 0 }
    ensures sized { Sized inputs }
{
    check_all(inputs, lists, output)
}

// Checks 1 to 7 of a call on one input.
pub fn check_known(
    inputs: Inputs,
    input: usize,
    lists: AllView<'_>,
    output: Output,
) -> Result<(), Refusal>
    ensures value { number_in result ≡ input_number inputs (lists_seen lists.entry) output input 0 }
    ensures sized { Sized inputs }
{
    check_record(inputs, lists, output)?;
    if inputs.count <= input {
        return Err(Refusal::NoInput);
    }
    Ok(())
}

// Checks 1 to 8 of a call on one input that takes so many words of commands.
#[tactic(auto, unfolding(rules_record::specs::Checks::timed_number, base::specs::Choice::ask))]
pub fn check_input(
    inputs: Inputs,
    input: usize,
    time: u64,
    lists: AllView<'_>,
    words: usize,
) -> Result<(), Refusal>
    ensures { number_in result ≡ timed_number inputs (lists_seen lists.entry) words input time 0 }
{
    check_known(inputs, input, lists, Output::Words(words))?;
    if base::TIME_LIMIT < time {
        return Err(Refusal::Time);
    }
    Ok(())
}
