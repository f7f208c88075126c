#![tactic(auto)]

pub mod answers;
mod line;
pub mod lines;
mod printing;
pub mod theorems;

pub use answers::{serve, serve_line};
pub use line::{Line, State, kind_of};
pub use lines::{LIMIT, Lines, served_lines};
pub use printing::{print_denial, print_question};

#[cfg(test)]
mod tests;
