// `set_delay`: an input's delay is stored, remembered for its flow, and sent.
#![tactic(auto)]

pub mod inner;
