#![tactic(auto)]

pub mod leaf_set;
pub mod sets;
pub mod theorems;

pub use sets::Positions;

#[cfg(test)]
mod tests;
