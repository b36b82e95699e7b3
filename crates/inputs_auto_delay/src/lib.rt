// One input's tick but for its routing: its lags arrive, a late event counts, and the automatic delay decides (document 01, "Supervision").
// Functions that ask something of their caller; the crates above use them after their checks.
#![tactic(auto)]

pub mod inner;
mod steps;
