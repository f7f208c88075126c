ghost use Rattle.rules.specs.RuleRows.{rule_rows};
ghost use Rattle.rules.specs.Trees.{Tree, Of};
ghost use Rattle.positions.specs.SetsOf.{SetsOf};

use positions::Positions;
use rules::Rule;

pub mod made;

// A rule that a sheet holds, with its position sets beside it.
#[derive(Clone, Copy)]
pub struct Held {
    rule: Rule,
    sets: Positions,
    ghost of: { ∥ ((t : Tree) → Of (rule_rows rule) t → SetsOf t sets) ∥₁ },
}
