// What document 02, §2 says of the delay file as a whole, as theorems: specs/FileClaims.antt. There is no code here.
#![tactic(auto)]
