// A payload of any words and any length in a file of blocks: its words, read and put where they stand.
#![tactic(auto)]

pub mod inner;
