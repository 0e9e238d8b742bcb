// How a case on word lists is run: its lists, and the public calls on them.
#![tactic(auto)]

pub mod calls;
pub mod run;
