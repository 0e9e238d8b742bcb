// The links and ramps of a corridor side by side: a table that is filled once, for the loops that ask for them at every step.
#![tactic(auto)]

pub mod inner;
