// What document 01 says of `next` and of making a hold, rule by rule at its edge, as computed claims: specs/Claims.antt. There is no code here.
#![tactic(auto)]
