// The third demand of one input, over lists of events of that input: definitions and theorems, no code. Crate third_demand has it over lists of calls.
#![tactic(auto)]
