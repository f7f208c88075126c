#![tactic(auto)]

pub mod alphabet;
pub mod denial;
pub mod kind;
pub mod row;
pub mod rule;
pub mod theorems;

pub use alphabet::Alphabet;
pub use denial::Denial;
pub use kind::Kind;
pub use row::Row;
pub use rule::Rule;

#[cfg(test)]
mod tests;
