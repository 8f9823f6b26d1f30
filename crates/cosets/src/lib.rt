// The check values of a mark, and the coset that they name.
#![tactic(auto)]

pub mod checks;
#[cfg(test)]
mod tests;
