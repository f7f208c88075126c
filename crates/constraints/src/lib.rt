#![tactic(auto)]

mod adding;
pub mod answers;
mod naming;
mod printing;
pub mod theorems;

pub use answers::{BENCH, FileSheet, LIMIT, serve, serve_line};
pub use session::State;

#[cfg(test)]
mod tests;
