ghost use Rattle.std.specs.Prelude.{◌≡◌, ◌≤◌};
ghost use Rattle.rules.specs.RuleRows.{rule_rows};
ghost use Rattle.matcher.specs.Sizes.{Sized};

use rules::Rule;

mod sizes;
mod splits;

// What a bench is laid out for: a rule, with the size of each node's tree, and a count of symbols. The sizes are an array, since
// the matcher takes no memory.
#[derive(Clone, Copy)]
pub(crate) struct Frame<'a> {
    pub(crate) rule: &'a Rule,
    pub(crate) sizes: [u8; 64],
    pub(crate) symbols: usize,
    ghost short: { symbols ≤ 120 },
    ghost sized: { ∥ Sized (rule_rows rule.now) sizes ∥₁ },
}

// A node and a stretch.
#[derive(Clone, Copy)]
pub(crate) struct Spot {
    pub(crate) node: usize,
    pub(crate) start: usize,
    pub(crate) end: usize,
}

impl Spot {
    // The same node, on the part of the stretch before k.
    pub(crate) fn front(self, k: usize) -> Spot
        ensures { result ≡ record self { end = k } }
    {
        Spot { end: k, ..self }
    }

    // The same node, on the part of the stretch from k on.
    pub(crate) fn back(self, k: usize) -> Spot
        ensures { result ≡ record self { start = k } }
    {
        Spot { start: k, ..self }
    }
}
