// How long the word lists of document 01 must be: refusal 1.
#![tactic(auto)]

pub mod inner;
