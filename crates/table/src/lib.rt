// The table of a code: its leaders in ranking order, settled bit by bit, and the calls on it.
#![tactic(auto)]

pub mod growing;
mod reading;
mod records;
mod subject;
pub mod table;
