// The first refusal of a row, and the row of the plan.
pub mod plans;
pub mod rows;
pub mod step;
