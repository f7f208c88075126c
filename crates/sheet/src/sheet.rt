ghost use Rattle.std.specs.Prelude.{◌≤◌, vec_len, vec_capacity};

use crate::held::Held;

mod checks;
mod locked;
pub mod open;
pub mod questions;

// What a sheet keeps from its opening on: an alphabet, a policy and at most sixteen rules, for which room is reserved.
#[derive(Drop)]
pub struct Kept<A, P> {
    alphabet: A,
    policy: P,
    rules: Vec<Held>,
    ghost few: { vec_len rules ≤ 16 },
    ghost room: { 16 ≤ vec_capacity rules },
}

// A sheet that takes rules.
#[derive(Drop)]
pub struct OpenSheet<A, P> {
    kept: Kept<A, P>,
}

// A sheet that answers questions.
#[derive(Drop)]
pub struct LockedSheet<A, P> {
    kept: Kept<A, P>,
}
