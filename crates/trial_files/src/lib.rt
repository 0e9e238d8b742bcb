// How a case on block files is run: its words and its file, and the readers and writers.
#![tactic(auto)]

pub mod bytes;
pub mod run;
pub mod transfer;
