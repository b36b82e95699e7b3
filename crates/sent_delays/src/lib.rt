// An input's delay is the samples of the last SetDelay sent to it, and its two times are those of the last SetDelay and the last SetInput: definitions and laws, no code.
#![tactic(auto)]
