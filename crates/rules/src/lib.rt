// Rules that rank marks: three of them, two layers over any rule, and the trait that all keep.
#![tactic(auto)]

pub mod basic;
pub mod cost;
pub mod layers;
pub mod length;
pub mod lists;
pub mod measure;
pub mod rule;
#[cfg(test)]
mod tests;
