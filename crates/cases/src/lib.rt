#![tactic(auto)]

pub mod lister;
pub mod membership;
pub mod pick;
pub mod tree;

pub use lister::readings;
pub use pick::best;

#[cfg(test)]
mod tests;
