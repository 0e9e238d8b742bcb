// The fault of one node by each of refusals 2 to 6.
#![tactic(auto)]

pub mod inner;
