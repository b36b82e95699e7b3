// `tick` and `auto_delay`: their rules and laws (document 01, "Supervision"), and what a tick brings and answers.
// No code: the code that is proved equal to them stands in inputs_auto_delay, inputs_tick_input and inputs_tick.
#![tactic(auto)]

use rules_record::Inputs;
use rules_routing::World;

// What a tick brings for one input.
#[derive(Clone, Copy)]
pub struct Look {
    // The inode that `watch` sees.
    pub seen: Option<u64>,
    // What `try_open` sees.
    pub world: World,
    // The delay that the mixer applies.
    pub applied: u32,
    // How many of the tick's lags are its own.
    pub lags: usize,
}

// The record after a tick, and whether the table of remembered delays is to be saved.
#[derive(Clone, Copy)]
pub struct Ticked {
    pub inputs: Inputs,
    pub unsaved: bool,
}
