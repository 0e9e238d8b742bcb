// The setting of a node that gives a record's flows: full speed at the smallest rate, or held at a limit.
#![tactic(auto)]

pub mod inner;

use road::{Speed, Units};

// What a search for a rate comes to: the rate that it found, if any, and how many rates it tried.
#[derive(Clone, Copy)]
pub struct Search {
    pub found: Option<Units>,
    pub tries: u32,
}

// A node's setting: full speed at a rate, or held at a rate and a limit.
#[derive(Clone, Copy)]
pub enum Setting {
    Full(Units),
    Held(Units, Speed),
}
