#![tactic(auto)]

pub mod held;
pub mod history;
pub mod sheet;
pub mod summary;

pub use sheet::{LockedSheet, OpenSheet};
pub use summary::Summary;

#[cfg(test)]
mod tests;
