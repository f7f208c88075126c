ghost use Rattle.std.specs.Prelude.{◌≡◌, true, false};
ghost use Rattle.rules.specs.Languages.{seen};
ghost use Rattle.rules.specs.RuleRows.{rule_rows};
ghost use Rattle.rules.specs.Trees.{Tree, Of};
ghost use Rattle.positions.specs.SetsOf.{SetsOf};
ghost use Rattle.sheet.specs.Questions.{Read};
ghost use Rattle.sheet.specs.Sheets.{held_rows};

use super::Held;
use positions::Positions;
use rules::{Alphabet, Rule};

impl Held {
    pub(crate) fn new(rule: Rule) -> Held
        ensures { held_rows result ≡ rule_rows rule }
    {
        let sets = Positions::of(&rule);
        Held { rule, sets }
    }

    pub(crate) fn rule(&self) -> &Rule
        ensures { rule_rows result.now ≡ held_rows self.now }
    {
        &self.rule
    }

    pub(crate) fn sets(&self) -> &Positions
        ensures { (t : Tree) → Of (held_rows self.now) t → SetsOf t result.now }
    {
        &self.sets
    }

    // Whether the rule reads the name.
    pub(crate) fn reads<A: Alphabet>(&self, alphabet: &A, name: &[A::Symbol]) -> bool
        ensures yes { result ≡ true → Read (held_rows self.now) (seen (A.Alphabet.held alphabet.now) name.now) }
        ensures no { result ≡ false → Read (held_rows self.now) (seen (A.Alphabet.held alphabet.now) name.now) → ⊥ }
    {
        self.sets.accepts(alphabet, name)
    }
}
