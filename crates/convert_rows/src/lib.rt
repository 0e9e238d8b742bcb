// Checker and converter on the rows of one step.
#![tactic(auto)]

pub mod inner;
