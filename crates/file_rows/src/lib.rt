// The words that the files of corridor, demands and record hold, and the rows of one step, unpacked out of them.
#![tactic(auto)]

pub mod inner;
