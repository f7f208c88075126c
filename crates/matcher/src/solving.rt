ghost use Rattle.std.specs.Prelude.{◌≡◌, ◌+◌};
ghost use Rattle.matcher.specs.Frames.{frame_kind};
ghost use Rattle.matcher.specs.Searches.{word, Sought, PresentAt, PreparedAt, SettledAt, GotAt};

use crate::bench::Cell;
use crate::frame::Spot;
use crate::ranking::{Leader, Pad};
use crate::search::Search;
use policies::Policy;
use rules::{Alphabet, Kind};

// Bench and pad stay two parameters, since `has` takes the bench alone. Codes stay bytes, since the bench's cells are bytes.
impl<A: Alphabet, P: Policy> Search<'_, A, P> {
    // Finds the code of the best reading of a stretch that the node has.
    #[cycle(solving)]
    pub(crate) fn solve(&self, bench: &mut [u8], pad: &mut Pad, spot: Spot)
        requires sought { Sought (P.Policy.above self.now.policy.now) self.now.frame (word self.now) bench.old spot }
        requires present { PresentAt self.now.frame (word self.now) spot }
        ensures { SettledAt (P.Policy.above self.now.policy.now) self.now.frame (word self.now) bench.old bench.new spot }
    {
        if let Cell::Code(_) = self.frame.look(bench, spot) {
            return;
        }
        let code = self.best_code(bench, pad, spot);
        self.frame.put(bench, spot, code);
    }

    // The code of the best reading of a stretch that the node has.
    #[cycle(solving)]
    fn best_code(&self, bench: &mut [u8], pad: &mut Pad, spot: Spot) -> u8
        requires sought { Sought (P.Policy.above self.now.policy.now) self.now.frame (word self.now) bench.old spot }
        requires present { PresentAt self.now.frame (word self.now) spot }
        ensures { GotAt (P.Policy.above self.now.policy.now) self.now.frame (word self.now) bench.old bench.new spot result }
    {
        match self.frame.kind(spot.node) {
            Kind::Choice => self.best_part(bench, pad, spot),
            Kind::Sequence => {
                self.solve_splits(bench, pad, spot);
                self.best_split(bench, spot, pad)
            }
            Kind::Empty | Kind::Leaf | Kind::Star => 1,
        }
    }

    // A choice: the part that is read, or the better of two.
    #[cycle(solving)]
    fn best_part(&self, bench: &mut [u8], pad: &mut Pad, spot: Spot) -> u8
        requires sought { Sought (P.Policy.above self.now.policy.now) self.now.frame (word self.now) bench.old spot }
        requires present { PresentAt self.now.frame (word self.now) spot }
        requires kind { frame_kind self.now.frame spot.node ≡ 2 }
        ensures { GotAt (P.Policy.above self.now.policy.now) self.now.frame (word self.now) bench.old bench.new spot result }
    {
        let (first, second) = self.frame.parts(spot);
        if !self.has(bench, first) {
            self.solve(bench, pad, second);
            return 2;
        }
        if !self.has(bench, second) {
            self.solve(bench, pad, first);
            return 1;
        }
        self.solve(bench, pad, first);
        self.solve(bench, pad, second);
        self.better(bench, spot, Leader::Alone(1), 2, pad).code()
    }

    // Finds the codes of both halves of every split of a sequence that has both.
    #[cycle(solving)]
    fn solve_splits(&self, bench: &mut [u8], pad: &mut Pad, spot: Spot)
        requires sought { Sought (P.Policy.above self.now.policy.now) self.now.frame (word self.now) bench.old spot }
        requires kind { frame_kind self.now.frame spot.node ≡ 3 }
        ensures { PreparedAt (P.Policy.above self.now.policy.now) self.now.frame (word self.now) bench.old bench.new spot (spot.end + 1) }
    {
        let (first, second) = self.frame.parts(spot);
        let splits = self.frame.splits(first, second.node);
        for k in splits {
            let (front, back) = (first.front(k), second.back(k));
            if self.has_both(bench, front, back) {
                self.solve(bench, pad, front);
                self.solve(bench, pad, back);
            }
        }
    }
}
