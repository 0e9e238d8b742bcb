// What the test program `cases` is made of: lines of text and what they tell, lists of words and of bytes, and printing.
#![tactic(auto)]

pub mod content;
pub mod line;
pub mod say;
