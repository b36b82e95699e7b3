// The rows of counts of a lag window and their row of sums (document 01, "LagWindow"; document 02, §5).
// They know of no `LagWindow`: they take how many buckets a second has, and a bucket's width.
#![tactic(auto)]

pub mod inner;
