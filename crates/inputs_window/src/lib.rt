// The window of one input, made from its slot, on its part of the lists of all inputs.
// Functions that ask something of their caller; the crates above use them after their checks.
#![tactic(auto)]

pub mod inner;
