// Words, and a payload's words in their place.
pub mod place;
pub mod words;
