// The scans of the word lists of document 01 for refusals 2 to 6.
#![tactic(auto)]

pub mod inner;
