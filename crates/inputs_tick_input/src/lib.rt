// The tick of one input (document 01, "Supervision"): its lags arrive, a late event counts, it opens or watches, and its automatic delay decides.
// Functions that ask something of their caller; `tick` uses them after its checks.
#![tactic(auto)]

pub mod inner;
