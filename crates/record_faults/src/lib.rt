// The fault of one node by each of refusals 7 to 12, and of a cost by 13.
#![tactic(auto)]

pub mod inner;
