// What refuses a file, and sealing.
pub mod reading;
pub mod sealing;
