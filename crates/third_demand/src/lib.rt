// The mission's third demand over lists of calls: definitions and the theorem, no code.
#![tactic(auto)]
