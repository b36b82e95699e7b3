// What a line of the text protocol asks, by value (compare/README.md, "The protocol"); which words give which request is text_read's. Where a request
// has a list (kinds, looks, loaded delays, rows, peaks), it holds the place of the line where the list
// begins, and not a part of the line: the rules speak of a request by numbers.
#![tactic(auto)]

use delay_hold::DelayHold;
use rules_calls::{DelaySetting, Settings, Source};
use rules_record::Route;
use rules_routing::World;
use sources::Down;

pub mod lists;
pub mod parts;

// What reading a line depends on: the inputs of the supervisor (0 before the first `new`), and the buckets a second of its windows and of the
// window alone, which a crafted row or sum may name.
#[derive(Clone, Copy)]
pub struct Known {
    pub inputs: usize,
    pub buckets: usize,
    pub lone_buckets: usize,
}

// ---- what the calls alone ask
#[derive(Clone, Copy)]
pub struct NeedAsked {
    pub offset: u32,
    pub most: u32,
    pub margin: u32,
    pub percent: f64,
    pub lag: u32,
}

#[derive(Clone, Copy)]
pub struct WindowAsked {
    pub offset: u32,
    pub most: u32,
    pub width: u32,
}

#[derive(Clone, Copy)]
pub struct PushAsked {
    pub lag: u32,
    pub time: u64,
}

#[derive(Clone, Copy)]
pub struct QuantileAsked {
    pub q: f64,
    pub limit: u32,
}

#[derive(Clone, Copy)]
pub struct NextAsked {
    pub offset: u32,
    pub most: u32,
    pub width: u32,
    pub hold: u64,
    pub window: u64,
    pub margin: u32,
    pub percent: f64,
    pub p999: Option<u32>,
    pub largest: Option<u32>,
    pub current: u32,
    pub time: u64,
}

#[derive(Clone, Copy)]
pub struct ChangedAsked {
    pub time: u64,
    pub delay: u64,
}

// The rows of a crafted window: where they begin, and how many they are.
#[derive(Clone, Copy)]
pub struct RowsAsked {
    pub at: usize,
    pub seconds: usize,
}

// A crafted sum of a window, and its bucket.
#[derive(Clone, Copy)]
pub struct SumAsked {
    pub bucket: usize,
    pub sum: u64,
}

// A crafted hold: where its peaks begin, and the hold that its fields make.
#[derive(Clone, Copy)]
pub struct HoldAsked {
    pub at: usize,
    pub hold: DelayHold,
}

// Milliseconds, samples, needs, and the block clock.
#[derive(Clone, Copy)]
pub enum NumberCall {
    Ms(u32),
    Samples(f64),
    Need(NeedAsked),
    IndexAt(u64),
    TimeOf(u64),
}

// A call on the window alone.
#[derive(Clone, Copy)]
pub enum WindowCall {
    WindowNew(WindowAsked),
    Push(PushAsked),
    Clear,
    Span,
    Quantile(QuantileAsked),
}

// A call on the hold alone.
#[derive(Clone, Copy)]
pub enum HoldCall {
    HoldNew,
    Next(NextAsked),
}

#[derive(Clone, Copy)]
pub enum CoalesceCall {
    CoalesceSet(Option<u64>),
    Changed(ChangedAsked),
    Pending,
    Take,
    TakeDue(u64),
}

// A call on the schedule of the Query API.
#[derive(Clone, Copy)]
pub enum ScheduleCall {
    QuerySet(Option<Down>),
    QueryUp(u64),
    QueryFailed(u64),
}

// A call that needs no supervisor, or what a line crafts of the window and the hold alone.
#[derive(Clone, Copy)]
pub enum Lone {
    Number(NumberCall),
    Window(WindowCall),
    WindowSet(RowsAsked),
    WindowSum(SumAsked),
    Hold(HoldCall),
    HoldSet(HoldAsked),
    Coalesce(CoalesceCall),
    Schedule(ScheduleCall),
    // A delay file, by the place of its bytes.
    ReadDelays(usize),
}

// ---- what the calls on a supervisor ask
// `kinds` is the place of the kinds, `loads` that of the loaded delays, which are `loaded` many.
#[derive(Clone, Copy)]
pub struct NewAsked {
    pub time: u64,
    pub settings: Settings,
    pub kinds: usize,
    pub loads: usize,
    pub loaded: usize,
}

#[derive(Clone, Copy)]
pub struct RouteAsked {
    pub time: u64,
    pub input: usize,
    pub wanted: Option<Source>,
    pub world: World,
}

#[derive(Clone, Copy)]
pub struct UpdateAsked {
    pub time: u64,
    pub input: usize,
    pub setting: DelaySetting,
}

#[derive(Clone, Copy)]
pub struct TimeAsked {
    pub time: u64,
    pub input: usize,
}

// `looks` is the place of what the tick brings for each input; the lags are `lags` many. A dry tick is read and not made.
#[derive(Clone, Copy)]
pub struct TickAsked {
    pub dry: bool,
    pub time: u64,
    pub looks: usize,
    pub lags: usize,
}

#[derive(Clone, Copy)]
pub struct StatusAsked {
    pub input: usize,
    pub applied: u32,
    pub channels: u32,
}

#[derive(Clone, Copy)]
pub struct HasAsked {
    pub input: usize,
    pub channels: u32,
    pub wanted: u32,
}

#[derive(Clone, Copy)]
pub struct CountersAsked {
    pub reopens: u64,
    pub delay_changes: u64,
    pub late_events: u64,
}

#[derive(Clone, Copy)]
pub struct DelaysAsked {
    pub delay: u32,
    pub proposed: Option<u32>,
}

// What `put` crafts of an input.
#[derive(Clone, Copy)]
pub enum Part {
    Window(RowsAsked),
    Hold(HoldAsked),
    Counters(CountersAsked),
    Delays(DelaysAsked),
    Sum(SumAsked),
}

#[derive(Clone, Copy)]
pub struct PutAsked {
    pub input: usize,
    pub part: Part,
}

// A call that changes the record.
#[derive(Clone, Copy)]
pub enum Change {
    New(NewAsked),
    Route(RouteAsked),
    Update(UpdateAsked),
    Confirm(TimeAsked),
    Tick(TickAsked),
}

// A call that changes nothing of the record.
#[derive(Clone, Copy)]
pub enum Ask {
    Status(StatusAsked),
    Has(HasAsked),
    Settled(TimeAsked),
    // The remembered delays as a file.
    WriteDelays,
    Dump,
}

// A call on a supervisor, or what a line crafts of its record.
#[derive(Clone, Copy)]
pub enum Call {
    Change(Change),
    Ask(Ask),
    Put(PutAsked),
}

// ---- a line
#[derive(Clone, Copy)]
pub enum Request {
    Bad,
    Flush,
    // Whole records are shown from now on, or not.
    Full(bool),
    Alone(Lone),
    On(Call),
}

// A request, and whether its lists are lent one place short.
#[derive(Clone, Copy)]
pub struct Line {
    pub short: bool,
    pub request: Request,
}
