ghost use Rattle.std.specs.Prelude.{◌≤◌, take};
ghost use Rattle.rules.specs.Trees.{Tree, Of};

use crate::row::Row;

pub mod checked;

// A rule: at most 64 rows, which are those of a tree. An array and a length, so that a rule is `Copy` and takes no memory of its own.
#[derive(Clone, Copy)]
pub struct Rule {
    rows: [Row; 64],
    len: usize,
    ghost few: { len ≤ 64 },
    ghost tree: { ∥ ((t : Tree) × Of (take len rows) t) ∥₁ },
}
