// The seal of a file of blocks, whatever its payload: kinds, numbers, padding and check words are written, and refused by 14 to 18.
#![tactic(auto)]

pub mod inner;
