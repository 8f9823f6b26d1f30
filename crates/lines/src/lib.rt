// Program input as lines and symbols, and the lines that a program reports.
#![tactic(auto)]

pub mod input;
pub mod report;
