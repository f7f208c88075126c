ghost use Rattle.std.specs.Prelude.{◌≡◌, true, ◌↔◌, bit_and};
ghost use Rattle.rules.specs.Languages.{In, seen};
ghost use Rattle.rules.specs.Trees.{Tree};
ghost use Rattle.positions.specs.SetsOf.{SetsOf, kept_leaves};
ghost use Rattle.positions.specs.Steps.{followers, holders, step};

use super::Positions;
use crate::leaf_set::Leaves;
use rules::Alphabet;

impl Positions {
    // The leaves of the set that hold the symbol; a leaf outside the set, or at or past the count, is not asked.
    fn holders<A: Alphabet>(&self, alphabet: &A, set: u32, symbol: &A::Symbol) -> u32
        ensures { result ≡ bit_and set (holders (kept_leaves self.now) 0 (λ lo hi. A.Alphabet.held alphabet.now lo hi symbol.now)) }
    {
        let mut held = 0;
        for p in Leaves(set) {
            let (lo, hi) = self.leaves[p];
            if p < self.count && alphabet.holds(lo, hi, symbol) {
                held |= 1 << p;
            }
        }
        held
    }

    // The leaves that follow one of the set. The leaves at or past the count are left to `holders`, which drops them.
    fn followers(&self, set: u32) -> u32
        ensures { result ≡ followers self.now.follow 0 set }
    {
        let mut next = 0;
        for p in Leaves(set) {
            next |= self.follow[p];
        }
        next
    }

    // The leaves reached from those of the set by the symbol: of the leaves that follow one of the set, those that hold it.
    // It takes what `holders` takes, which it calls; a struct for these two would be no plainer.
    fn step<A: Alphabet>(&self, alphabet: &A, set: u32, symbol: &A::Symbol) -> u32
        ensures { (t : Tree) → SetsOf t self.now → result ≡ step t set (λ lo hi. A.Alphabet.held alphabet.now lo hi symbol.now) }
    {
        self.holders(alphabet, self.followers(set), symbol)
    }

    // Whether the name is one of the rule: a step for each symbol while a leaf is reached, and at the end a leaf that can come last.
    pub fn accepts<A: Alphabet>(&self, alphabet: &A, name: &[A::Symbol]) -> bool
        ensures { (t : Tree) → SetsOf t self.now → (result ≡ true) ↔ In t (seen (A.Alphabet.held alphabet.now) name.now) }
    {
        let [symbol, rest @ ..] = name else {
            return self.nullable;
        };
        let mut set = self.holders(alphabet, self.first, symbol);
        for symbol in rest {
            if set == 0 {
                return false;
            }
            set = self.step(alphabet, set, symbol);
        }
        set & self.last != 0
    }
}
