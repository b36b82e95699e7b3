// The tick of a supervisor (document 01, "Supervision"): its checks, and then all inputs in order.
#![tactic(auto)]

ghost use Rattle.std.specs.Prelude.{◌≡◌};
ghost use Rattle.refusals.specs.Numbers.{number_in};
ghost use Rattle.rules_record.specs.Sized.{Sized};
ghost use Rattle.rules_record.specs.Lending.{lists_lent, lists_seen, SameLists};
ghost use Rattle.rules_tick.specs.TickChecks.{tick_number};
ghost use Rattle.rules_tick.specs.TickAnswer.{told};
ghost use Rattle.rules_tick.specs.TickLeaves.{tick_leaves};

use inputs_commands::Commands;
use refusals::Refusal;
use rules_record::{AllLists, AllView, Inputs, Output};
pub use rules_tick::{Look, Ticked};

mod each;
mod fits;

// Checks 1 to 6, 8, 10 and 11. The record's tables have their places, as in every value of its type.
fn check_tick(
    inputs: Inputs,
    looks: [Look; 16],
    lags: &[u32],
    time: u64,
    lists: AllView<'_>,
    words: usize,
) -> Result<(), Refusal>
    ensures value { number_in result ≡ tick_number inputs (lists_seen lists.entry) words looks lags.now time }
    ensures sized { Sized inputs }
{
    inputs_checks::check_record(inputs, lists, Output::Words(words))?;
    if base::TIME_LIMIT < time {
        return Err(Refusal::Time);
    }
    if !fits::looks_fit(inputs, looks) {
        return Err(Refusal::Shown);
    }
    if !fits::lags_fit(inputs, looks, lags) {
        return Err(Refusal::Shown);
    }
    if !fits::rooms_fit(inputs, looks, time, lists.starts, lists.totals) {
        return Err(Refusal::SecondFull);
    }
    Ok(())
}

// All inputs in order: their lags arrive, they open or watch, and their automatic delays decide. Then the instances that no input reads go, and the unsaved mark is reported and cleared. The lags of input 0 stand first.
pub fn tick(
    inputs: Inputs,
    looks: [Look; 16],
    lags: &[u32],
    time: u64,
    lists: &mut AllLists<'_>,
    commands: &mut [u32],
) -> Result<Ticked, Refusal>
    ensures told { told inputs result (lists_lent lists.new) commands.new ≡ tick_leaves inputs (lists_lent lists.old) commands.old looks lags.now time }
    ensures same { SameLists lists.old lists.new }
{
    check_tick(inputs, looks, lags, time, lists.view(), commands.len())?;
    commands.fill(0);
    let mut sent = Commands {
        words: commands,
        used: 0,
    };
    let all = each::tick_inputs(inputs, looks, lags, time, lists, &mut sent);
    let kept = inputs_instances::prune_instances(all, None);
    let done = each::saved(kept);
    Ok(Ticked {
        inputs: done,
        unsaved: all.unsaved,
    })
}
