// Check table files: a code and the rule that the file names, read and written.
#![tactic(auto)]

pub mod code;
mod fields;
pub mod kind;
mod lent;
pub mod reading;
pub mod rule;
mod sizes;
#[cfg(test)]
mod tests;
pub mod writing;
