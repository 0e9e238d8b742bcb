// What asks something of its caller: the answers to the files and to the words in them, and the plan file.
pub mod answers;
pub mod plans;
