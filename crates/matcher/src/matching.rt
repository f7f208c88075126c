ghost use Rattle.std.specs.Prelude.{◌≡◌, ◌≤◌, true, false, length};
ghost use Rattle.rules.specs.Trees.{Tree, Of};
ghost use Rattle.rules.specs.RuleRows.{rule_rows};
ghost use Rattle.rules.specs.Languages.{seen};
ghost use Rattle.matcher.specs.Frames.{frame_rows, Laid};
ghost use Rattle.matcher.specs.Matching.{Fits, Outcome};
ghost use Rattle.matcher.specs.Searches.{word};

use crate::frame::{Frame, Spot};
use crate::ranking::Pad;
use crate::search::Search;
use policies::Policy;
use rules::{Alphabet, Rule};

// Why a name was not matched.
#[derive(Clone, Copy, PartialEq, Eq, Debug)]
pub enum Unmatched {
    // The name is too long, or the bench or the report too short.
    Unfit,
    // The name is not in the rule's language.
    NotRead,
}

// Names are at most this long.
pub const LONGEST: usize = 120;

// The bench's size stands in `wipe` and in the sheet's check too, each bounded by what is known there.
fn fits(nodes: usize, symbols: usize, bench: usize, report: usize) -> bool
    requires { nodes ≤ 64 }
    ensures yes { result ≡ true → Fits nodes symbols bench report }
    ensures no { result ≡ false → Fits nodes symbols bench report → ⊥ }
{
    symbols <= LONGEST && nodes * (symbols + 1) * (symbols + 1) <= bench && nodes <= report
}

impl<A: Alphabet, P: Policy> Search<'_, A, P> {
    // Writes the best reading of the whole name, if there is one.
    fn read_whole(
        &self,
        bench: &mut [u8],
        out: &mut [Option<(usize, usize)>],
    ) -> Result<(), Unmatched>
        requires laid { Laid self.now.frame bench.old }
        requires long { length out.old ≡ length (frame_rows self.now.frame) }
        ensures { (t : Tree) → Of (frame_rows self.now.frame) t → Outcome (P.Policy.above self.now.policy.now) t (word self.now) bench.old bench.new out.old out.new result }
    {
        let symbols = self.frame.symbols;
        self.frame.wipe(bench);
        let root = Spot {
            node: 0,
            start: 0,
            end: symbols,
        };
        if !self.has(bench, root) {
            return Err(Unmatched::NotRead);
        }
        let mut pad = Pad {
            best: [None; 64],
            next: [None; 64],
        };
        self.solve(bench, &mut pad, root);
        let code = self.frame.byte(bench, root);
        self.frame.unpack(bench, 0, Some((0, symbols)), code, out);
        Ok(())
    }
}

// Finds the best reading of the name by the rule, and writes it at the front of the report. The bench is scratch: what it holds
// does not matter. Each parameter is a caller's own, so no struct takes them together.
pub fn best_reading<A: Alphabet, P: Policy>(
    alphabet: &A,
    policy: &P,
    rule: &Rule,
    name: &[A::Symbol],
    bench: &mut [u8],
    report: &mut [Option<(usize, usize)>],
) -> Result<(), Unmatched>
    ensures { (t : Tree) → Of (rule_rows rule.now) t → Outcome (P.Policy.above policy.now) t (seen (A.Alphabet.held alphabet.now) name.now) bench.old bench.new report.old report.new result }
{
    let nodes = rule.rows().len();
    if !fits(nodes, name.len(), bench.len(), report.len()) {
        return Err(Unmatched::Unfit);
    }
    let search = Search {
        frame: Frame::new(rule, name.len()),
        alphabet,
        policy,
        name,
    };
    search.read_whole(bench, &mut report[..nodes])
}
