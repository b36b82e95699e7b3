// The record of a supervisor with the lists lent for it: its rules and their laws (document 01, "Kept and written anew" and "The gatekeeper's questions", 1 to 8), and the data itself.
// But for a state's number and the view of the lists there is no code: what is proved equal to the rules stands in inputs_slots, inputs_flows, inputs_instances, inputs_places and inputs_checks.
#![tactic(auto)]

ghost use Rattle.std.specs.Prelude.{◌≡◌};
ghost use Rattle.rules_record.specs.Lending.{lists_lent, lists_seen};
ghost use Rattle.rules_record.specs.States.{state_number};

use delay_hold::DelayHold;
use policy::DelayPolicy;

#[derive(Clone, Copy, Debug, PartialEq, Eq, PartialOrd, Ord, Hash)]
pub enum AutoTag {
    Auto,
}

// An input's extra delay: measured, or fixed in milliseconds.
#[derive(Clone, Copy, Debug, PartialEq)]
pub enum ExtraDelay {
    Auto(AutoTag),
    Ms(f64),
}

#[derive(Clone, Copy, Debug, PartialEq)]
pub struct InputConfig {
    pub extra_delay: ExtraDelay,
}

#[derive(Clone, Copy, Debug, PartialEq, Eq, PartialOrd, Ord, Hash)]
pub enum State {
    Unrouted,
    Waiting,
    Running,
    Stalled,
}

// The state's number.
impl From<State> for u32 {
    ghost from_gives = { λ state number. number ≡ state_number state };

    fn from(state: State) -> u32 {
        state as u32
    }
}

// Where an input reads from. The domain is the host's number for its path; the flow is its place in the flow table, which it never leaves.
#[derive(Clone, Copy, Debug, PartialEq, Eq, PartialOrd, Ord, Hash)]
pub struct Route {
    pub domain: u64,
    pub flow: usize,
}

#[derive(Clone, Copy)]
pub struct Slot {
    pub config: InputConfig,
    pub state: State,
    pub route: Option<Route>,
    pub inode: Option<u64>,
    pub last_head: u64,
    // When the head was last seen to move.
    pub head_changed: u64,
    pub reopens: u64,
    // How many of its 11 lent seconds of lags are in use.
    pub lag_seconds: usize,
    pub last_lag: u32,
    // The extra delay that was sent last (samples).
    pub delay: u32,
    pub proposed: Option<u32>,
    pub hold: DelayHold,
    // Automatic delay changes (each one a fade), and ticks with a late block after one without.
    pub delay_changes: u64,
    pub late_events: u64,
    pub late_before: bool,
    // When the last SetDelay went to this input.
    pub last_set: Option<u64>,
    // When the last SetInput went to this input.
    pub last_input: Option<u64>,
}

// A flow's 16 bytes, the first weighing most: eight in high, eight in low.
#[derive(Clone, Copy, Debug, PartialEq, Eq, PartialOrd, Ord, Hash)]
pub struct Flow {
    pub high: u64,
    pub low: u64,
}

#[derive(Clone, Copy, Debug, PartialEq, Eq)]
pub struct FlowEntry {
    pub flow: Flow,
    pub remembered: Option<u32>,
}

// One generation of a flow: the flow's place and the inode of its data file.
#[derive(Clone, Copy, Debug, PartialEq, Eq, PartialOrd, Ord, Hash)]
pub struct Instance {
    pub flow: usize,
    pub inode: u64,
}

// The record goes by value and allocates nothing: slots, flows and instances have all their places, and the counts say how many are in use.
#[derive(Clone, Copy)]
pub struct Inputs {
    // How many of the slots are inputs; the others are empty.
    pub count: usize,
    pub policy: DelayPolicy,
    // The width of a lag window's bucket (samples).
    pub width: u32,
    // How long the head may stand still.
    pub stall: u64,
    // Whether an automatic delay waits for confirmation.
    pub confirm: bool,
    pub slots: [Slot; 16],
    pub flows: [FlowEntry; 64],
    pub flow_count: usize,
    // A remembered delay changed since the table was last saved.
    pub unsaved: bool,
    pub instances: [Instance; 18],
    pub instance_count: usize,
}

// The length of the list that a call writes its answer to: none, words of commands, or bytes and how many it must have exactly.
#[derive(Clone, Copy, Debug, PartialEq, Eq)]
pub enum Output {
    Absent,
    Words(usize),
    Bytes(usize, usize),
}

// The lists lent for all inputs, those of input 0 first: 11 seconds of lags and 600 peaks an input, oldest first, unused places zero, and the sums over its seconds.
#[derive(Drop)]
pub struct AllLists<'a> {
    pub starts: &'a mut [u64],
    pub totals: &'a mut [u64],
    pub counts: &'a mut [u32],
    pub sums: &'a mut [u64],
    pub times: &'a mut [u64],
    pub peaks: &'a mut [u32],
}

// The same lists, to be read.
#[derive(Clone, Copy)]
pub struct AllView<'a> {
    pub starts: &'a [u64],
    pub totals: &'a [u64],
    pub counts: &'a [u32],
    pub sums: &'a [u64],
    pub times: &'a [u64],
    pub peaks: &'a [u32],
}

impl AllLists<'_> {
    pub fn view(&self) -> AllView<'_>
        ensures { lists_seen result ≡ lists_lent self.now }
    {
        AllView {
            starts: &*self.starts,
            totals: &*self.totals,
            counts: &*self.counts,
            sums: &*self.sums,
            times: &*self.times,
            peaks: &*self.peaks,
        }
    }
}
