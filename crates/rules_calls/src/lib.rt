// The calls `new`, `route`, `update`, `confirm_delay`, `status`, `has_channels` and `settled`: their rules and laws (document 01, "Supervision"; document 02, §4 and §6), and what they are given and answer.
// No code: the code that is proved equal to them stands in the crates inputs_new, inputs_route, inputs_update and inputs_status.
#![tactic(auto)]

use rules_record::{AutoTag, ExtraDelay, Flow, State};

// A flow in a domain.
#[derive(Clone, Copy)]
pub struct Source {
    pub domain: u64,
    pub flow: Flow,
}

// The quantiles 0.5, 0.99 and 0.999 of the lags, in milliseconds.
#[derive(Clone, Copy)]
pub struct ArrivalLag {
    pub p50: f64,
    pub p99: f64,
    pub p999: f64,
}

// The status of one input.
#[derive(Clone, Copy)]
pub struct InputStatus {
    pub state: State,
    pub source: Option<Source>,
    pub channels: u32,
    pub extra_delay: ExtraDelay,
    // The applied delay, and with the read offset.
    pub extra_delay_ms: f64,
    pub effective_delay_ms: f64,
    pub proposed_delay_ms: Option<f64>,
    // The last lag, the quantiles, and the greatest peak.
    pub lag_ms: f64,
    pub arrival_lag_ms: Option<ArrivalLag>,
    pub worst_lag_ms: Option<f64>,
    pub delay_changes: u64,
    pub late_events: u64,
    pub reopens: u64,
}

// What `update` is given: automatic, or a manual delay in milliseconds, sent by the scoring program (Ms) or by the listening desk (Desk). The record keeps no sender.
#[derive(Clone, Copy)]
pub enum DelaySetting {
    Auto(AutoTag),
    Ms(f64),
    Desk(f64),
}

// What a supervisor is set to. Times are in nanoseconds, the margin's share is a percent.
#[derive(Clone, Copy)]
pub struct Settings {
    pub count: usize,
    pub read_offset: u32,
    pub delay_max: u32,
    pub width: u32,
    pub hold: u64,
    pub window: u64,
    pub stall: u64,
    pub margin: u32,
    pub percent: f64,
    pub confirm: bool,
}
