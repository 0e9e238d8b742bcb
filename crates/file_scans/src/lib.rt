// The scans of block files for refusals 2 to 5 and 7 to 13.
#![tactic(auto)]

pub mod inner;
