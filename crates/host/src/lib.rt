// The functions that a C host calls: each answers row × 65,536 + node × 256 + refusal number, and 0 for accepted.
#![tactic(auto)]

pub mod inner;
pub mod on_files;
pub mod on_nodes;
pub mod on_words;
pub mod readers;
