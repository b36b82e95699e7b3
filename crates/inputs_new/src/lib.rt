// A new supervisor (document 01, "Kept and written anew" and "The gatekeeper's questions").
#![tactic(auto)]

ghost use Rattle.std.specs.Prelude.{◌≡◌, ◌*◌, ◌==◌};
ghost use Rattle.refusals.specs.Numbers.{number_in};
ghost use Rattle.rules_record.specs.Lending.{lists_lent, lists_seen, SameLists};
ghost use Rattle.rules_record.specs.Reply.{left_inputs};
ghost use Rattle.rules_calls.specs.NewRecord.{policy_of, blank, blank_for, no_inputs};
ghost use Rattle.rules_calls.specs.NewStart.{zeroed_lists};
ghost use Rattle.rules_calls.specs.NewChecks.{margin_fits, settings_number};
ghost use Rattle.rules_calls.specs.NewReply.{new_reply};

use inputs_commands::Commands;
use policy::DelayPolicy;
use refusals::Refusal;
use rules_calls::Settings;
use rules_record::{AllLists, AllView, ExtraDelay, Flow, FlowEntry, Inputs, Instance, Output};

mod loading;
mod start;

// ---- the record without delays
fn policy_of(settings: Settings) -> DelayPolicy
    ensures { result ≡ policy_of settings }
{
    DelayPolicy {
        read_offset: settings.read_offset,
        delay_max: settings.delay_max,
        hold: settings.hold,
        window: settings.window,
        margin: settings.margin,
        margin_share: settings.percent / 100.0,
    }
}

// Every place of the three tables is unused.
pub fn blank(count: usize, policy: DelayPolicy, width: u32, stall: u64, confirm: bool) -> Inputs
    ensures { result ≡ blank count policy width stall confirm }
{
    let slot = inputs_slots::empty_slot();
    let slots = [slot; 16];
    let flow = Flow { high: 0, low: 0 };
    let remembered = None;
    let entry = FlowEntry { flow, remembered };
    let flows = [entry; 64];
    let key = Instance { flow: 0, inode: 0 };
    let instances = [key; 18];
    Inputs {
        count,
        policy,
        width,
        stall,
        confirm,
        slots,
        flows,
        flow_count: 0,
        unsaved: false,
        instances,
        instance_count: 0,
    }
}

fn blank_for(settings: Settings) -> Inputs
    ensures { result ≡ blank_for settings }
{
    let policy = policy_of(settings);
    blank(
        settings.count,
        policy,
        settings.width,
        settings.stall,
        settings.confirm,
    )
}

// ---- the checks
// Is margin at most 96,000, percent 0 to 1,000 and no NaN (check 4)?
#[tactic(auto, unfolding(rules_calls::specs::NewChecks::margin_fits, policy::specs::Settings::percent_allowed, base::specs::Choice::both))]
fn margin_fits(settings: Settings) -> bool
    ensures { result ≡ margin_fits settings }
{
    settings.margin <= base::SAMPLES_LIMIT
        && (settings.percent >= 0.0 && settings.percent <= 1000.0)
}

// Are there 16 flow bytes to each loaded delay (check 5)?
fn bytes_fit(bytes: usize, delays: usize) -> bool
    ensures { result ≡ (bytes == delays * 16) }
{
    bytes % 16 == 0 && bytes / 16 == delays
}

// Checks 1 to 5.
fn check_settings(
    settings: Settings,
    bytes: usize,
    delays: usize,
    lists: AllView<'_>,
    words: usize,
) -> Result<(), Refusal>
    ensures { number_in result ≡ settings_number settings bytes delays (lists_seen lists.entry) words 0 }
{
    if !inputs_checks::inputs_allowed(settings.count) {
        return Err(Refusal::InputCount);
    }
    buckets::check_ranges(settings.read_offset, settings.delay_max, settings.width)?;
    let policy = policy_of(settings);
    if !inputs_checks::pauses_allowed(policy, settings.stall) {
        return Err(Refusal::Pause);
    }
    if !margin_fits(settings) {
        return Err(Refusal::Margin);
    }
    let buckets = buckets::inner::buckets_of(
        settings.read_offset,
        settings.delay_max,
        settings.width,
    );
    if !inputs_checks::inner::lists_fit(settings.count, buckets, lists) {
        return Err(Refusal::ListLength);
    }
    if !inputs_checks::inner::output_fits(settings.count, Output::Words(words)) {
        return Err(Refusal::ListLength);
    }
    if !bytes_fit(bytes, delays) {
        return Err(Refusal::ListLength);
    }
    Ok(())
}

// ---- the call
fn zero_lists(lists: &mut AllLists<'_>)
    ensures zeroed { lists_lent lists.new ≡ zeroed_lists (lists_lent lists.old) }
    ensures same { SameLists lists.old lists.new }
{
    lists.starts.fill(0);
    lists.totals.fill(0);
    lists.counts.fill(0);
    lists.sums.fill(0);
    lists.times.fill(0);
    lists.peaks.fill(0);
}

// A supervisor with these settings, a delay kind for each input, and the remembered delays that the host loaded: 16 flow bytes to each.
pub fn new(
    settings: Settings,
    kinds: [ExtraDelay; 16],
    flows: &[u8],
    delays: &[u32],
    time: u64,
    lists: &mut AllLists<'_>,
    commands: &mut [u32],
) -> Result<Inputs, Refusal>
    ensures left { left_inputs no_inputs result (lists_lent lists.new) commands.new ≡ new_reply settings kinds flows.now delays.now time (lists_lent lists.old) commands.old }
    ensures same { SameLists lists.old lists.new }
{
    check_settings(
        settings,
        flows.len(),
        delays.len(),
        lists.view(),
        commands.len(),
    )?;
    if base::TIME_LIMIT < time {
        return Err(Refusal::Time);
    }
    let Some(all) = loading::load(blank_for(settings), flows, delays) else {
        return Err(Refusal::FlowTable);
    };
    zero_lists(lists);
    commands.fill(0);
    let mut sent = Commands {
        words: commands,
        used: 0,
    };
    Ok(start::started(all, settings.count, kinds, time, &mut sent))
}
