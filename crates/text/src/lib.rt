#![tactic(auto)]

mod kept;
pub mod reader;
mod readers;
pub mod sign;
pub mod theorems;

pub use reader::read;

#[cfg(test)]
mod tests;
