// The run of all steps, and what refuses it.
pub mod answer;
pub mod run;
