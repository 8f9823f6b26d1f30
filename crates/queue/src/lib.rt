// A priority queue over lent memory, for any items that a ranking puts in order.
#![tactic(auto)]

pub mod queue;
pub mod ranking;
mod sift;
#[cfg(test)]
mod tests;
