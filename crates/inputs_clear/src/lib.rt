// An input's window and hold are cleared: a route, or the automatic kind, starts to measure anew (document 01, "Supervision").
// Functions that ask something of their caller; the crates above use them after their checks.
#![tactic(auto)]

pub mod inner;
