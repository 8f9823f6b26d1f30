// Any list of calls on one table, from its opening on: every answer, refusal and buffer as defined.
#![tactic(auto)]

pub mod calls;
pub mod entry;
#[cfg(test)]
mod tests;
