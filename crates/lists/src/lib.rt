// The word lists of document 01: where each word stands, and what it says.
#![tactic(auto)]

pub mod inner;
