// The fifteen worked answers of document 01 as one theorem: proofs/Fifteen.antt. There is no code here.
#![tactic(auto)]
