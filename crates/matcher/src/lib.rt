#![tactic(auto)]

mod bench;
mod frame;
pub mod matching;
mod membership;
mod ranking;
mod search;
mod solving;
mod unpack;

pub use matching::{Unmatched, best_reading};
