// The answer to an input, and its lines, each put into a lent buffer.
pub mod input;
pub mod lines;
pub mod text;
