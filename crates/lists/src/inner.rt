// What other crates use of the word lists: most of it asks something of its caller.
pub mod corridor;
pub mod demands;
pub mod plan;
pub mod record;
pub mod rows;
