// Alphabets, and marks packed two bits a place.
#![tactic(auto)]

pub mod alphabet;
pub mod mark;
#[cfg(test)]
mod tests;
