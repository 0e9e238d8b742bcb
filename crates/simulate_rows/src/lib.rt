// One step of the simulator on its rows: from a row of a state to the row of the record and to the row of the next state.
#![tactic(auto)]

pub mod inner;
