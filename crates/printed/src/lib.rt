// What the program `normal` prints for an input: the answer to it, and the text of its lines.
#![tactic(auto)]

pub mod inner;
