ghost use Rattle.std.specs.Prelude.{◌≡◌};
ghost use Rattle.rules.specs.Trees.{leaf};
ghost use Rattle.rules.specs.Languages.{seen};
ghost use Rattle.matcher.specs.Frames.{frame_kind};
ghost use Rattle.matcher.specs.Searches.{word, Asked, ToldAt, BothToldAt};
ghost use Rattle.matcher.specs.States.{Says};

use crate::bench::Cell;
use crate::frame::Spot;
use crate::search::Search;
use rules::{Alphabet, Kind, Row};

// Whether a leaf has a stretch of a name.
fn leaf_has<A: Alphabet>(alphabet: &A, row: Row, stretch: &[A::Symbol]) -> bool
    ensures { Says (leaf row.lo row.hi) (seen (A.Alphabet.held alphabet.now) stretch.now) result }
{
    match stretch {
        [symbol] => alphabet.holds(row.lo, row.hi, symbol),
        _ => false,
    }
}

impl<A: Alphabet, P> Search<'_, A, P> {
    // Whether the node has the stretch.
    #[cycle(membership)]
    pub(crate) fn has(&self, bench: &mut [u8], spot: Spot) -> bool
        requires { Asked self.now.frame (word self.now) bench.old spot }
        ensures { ToldAt self.now.frame (word self.now) bench.old bench.new spot result }
    {
        match self.frame.look(bench, spot) {
            Cell::Lacks => false,
            Cell::Has | Cell::Code(_) => true,
            Cell::Unknown => {
                let found = self.has_anew(bench, spot);
                self.frame.mark(bench, spot, found);
                found
            }
        }
    }

    // The same, where the bench does not know it.
    #[cycle(membership)]
    fn has_anew(&self, bench: &mut [u8], spot: Spot) -> bool
        requires { Asked self.now.frame (word self.now) bench.old spot }
        ensures { ToldAt self.now.frame (word self.now) bench.old bench.new spot result }
    {
        match self.frame.kind(spot.node) {
            Kind::Empty => spot.start == spot.end,
            Kind::Leaf => {
                let row = self.frame.rows()[spot.node];
                leaf_has(self.alphabet, row, &self.name[spot.start..spot.end])
            }
            Kind::Choice => self.has_either(bench, spot),
            Kind::Sequence => self.has_pair(bench, spot),
            Kind::Star => self.has_rounds(bench, spot),
        }
    }

    // A choice.
    #[cycle(membership)]
    fn has_either(&self, bench: &mut [u8], spot: Spot) -> bool
        requires asked { Asked self.now.frame (word self.now) bench.old spot }
        requires kind { frame_kind self.now.frame spot.node ≡ 2 }
        ensures { ToldAt self.now.frame (word self.now) bench.old bench.new spot result }
    {
        let (first, second) = self.frame.parts(spot);
        self.has(bench, first) || self.has(bench, second)
    }

    // A sequence.
    #[cycle(membership)]
    fn has_pair(&self, bench: &mut [u8], spot: Spot) -> bool
        requires asked { Asked self.now.frame (word self.now) bench.old spot }
        requires kind { frame_kind self.now.frame spot.node ≡ 3 }
        ensures { ToldAt self.now.frame (word self.now) bench.old bench.new spot result }
    {
        let (first, second) = self.frame.parts(spot);
        let splits = self.frame.splits(first, second.node);
        for k in splits {
            if self.has_both(bench, first.front(k), second.back(k)) {
                return true;
            }
        }
        false
    }

    // A star: its first round takes at least one symbol.
    #[cycle(membership)]
    fn has_rounds(&self, bench: &mut [u8], spot: Spot) -> bool
        requires asked { Asked self.now.frame (word self.now) bench.old spot }
        requires kind { frame_kind self.now.frame spot.node ≡ 4 }
        ensures { ToldAt self.now.frame (word self.now) bench.old bench.new spot result }
    {
        if spot.start == spot.end {
            return true;
        }
        let round = Spot {
            node: spot.node + 1,
            ..spot
        };
        let splits = self.frame.splits(round, spot.node);
        for k in spot.start + 1..splits.end {
            if self.has_both(bench, round.front(k), spot.back(k)) {
                return true;
            }
        }
        false
    }

    // Whether two nodes have the halves of a split.
    #[cycle(membership)]
    pub(crate) fn has_both(&self, bench: &mut [u8], first: Spot, second: Spot) -> bool
        requires first { Asked self.now.frame (word self.now) bench.old first }
        requires second { Asked self.now.frame (word self.now) bench.old second }
        requires meet { first.end ≡ second.start }
        ensures { BothToldAt self.now.frame (word self.now) bench.old bench.new first second result }
    {
        self.has(bench, first) && self.has(bench, second)
    }
}
