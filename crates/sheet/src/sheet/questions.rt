ghost use Rattle.std.specs.Prelude.{◌≡◌, List, length, None};
ghost use Rattle.rules.specs.Languages.{seen};
ghost use Rattle.policies.specs.FirstLongest.{First};
ghost use Rattle.policies.specs.Keys.{first_above, posix_above};
ghost use Rattle.policies.specs.Posix.{Posix};
ghost use Rattle.sheet.specs.Histories.{Call, govern, held_after, sets, spans};
ghost use Rattle.sheet.specs.Law.{Law, govern_result, sets_result, spans_result};
ghost use Rattle.sheet.specs.Published.{Published};
ghost use Rattle.sheet.specs.Questions.{at, GovernAnswer, SetsAnswer, SpansAnswer, spans_met};
ghost use Rattle.sheet.specs.Sheets.{locked};

use super::LockedSheet;
use crate::summary::Summary;
use policies::Policy;
use rules::{Alphabet, Denial};

// Each answer is found, and its clause proved, by a function of its own; what a policy and a history make of it follows here.
// The parameters are the call's own.
impl<A: Alphabet, P: Policy> LockedSheet<A, P> {
    // Writes the best reading of the name by the rule at a place into the first entries of the report.
    pub fn spans(
        &self,
        place: usize,
        name: &[A::Symbol],
        bench: &mut [u8],
        report: &mut [Option<(usize, usize)>],
    ) -> Result<(), Denial>
        ensures answer { SpansAnswer (P.Policy.above self.now.kept.policy) (seen (A.Alphabet.held self.now.kept.alphabet) name.now) (locked self.now) place bench.old bench.new report.old report.new result }
        ensures posix { P.Policy.above self.now.kept.policy ≡ posix_above → spans_met (locked self.now) place (length (seen (A.Alphabet.held self.now.kept.alphabet) name.now)) (length bench.old) (length report.old) ≡ None → Published Posix (at (locked self.now) place) (seen (A.Alphabet.held self.now.kept.alphabet) name.now) report.new result }
        ensures first { P.Policy.above self.now.kept.policy ≡ first_above → spans_met (locked self.now) place (length (seen (A.Alphabet.held self.now.kept.alphabet) name.now)) (length bench.old) (length report.old) ≡ None → Published First (at (locked self.now) place) (seen (A.Alphabet.held self.now.kept.alphabet) name.now) report.new result }
        ensures law { (past : List (Call A.Symbol)) → locked self.now ≡ held_after (A.Alphabet.admitted self.now.kept.alphabet) past → Law (A.Alphabet.admitted self.now.kept.alphabet) (A.Alphabet.held self.now.kept.alphabet) (P.Policy.above self.now.kept.policy) past (spans place name.now (length bench.old) (length report.old)) (spans_result (length (at (locked self.now) place)) result report.new) }
    {
        self.best_at(place, name, bench, report)
    }

    // The lowest place whose rule reads the name.
    pub fn govern(&self, name: &[A::Symbol]) -> Result<usize, Denial>
        ensures answer { GovernAnswer (locked self.now) (seen (A.Alphabet.held self.now.kept.alphabet) name.now) result }
        ensures law { (past : List (Call A.Symbol)) → locked self.now ≡ held_after (A.Alphabet.admitted self.now.kept.alphabet) past → Law (A.Alphabet.admitted self.now.kept.alphabet) (A.Alphabet.held self.now.kept.alphabet) (P.Policy.above self.now.kept.policy) past (govern name.now) (govern_result result) }
    {
        self.lowest(name)
    }

    // The position sets of the rule at a place: all but the follow sets are returned, and these are written.
    pub fn sets(&self, place: usize, masks: &mut [u32]) -> Result<Summary, Denial>
        ensures answer { SetsAnswer (locked self.now) place masks.old masks.new result }
        ensures law { (past : List (Call A.Symbol)) → locked self.now ≡ held_after (A.Alphabet.admitted self.now.kept.alphabet) past → Law (A.Alphabet.admitted self.now.kept.alphabet) (A.Alphabet.held self.now.kept.alphabet) (P.Policy.above self.now.kept.policy) past (sets place (length masks.old)) (sets_result result masks.new) }
    {
        self.sets_at(place, masks)
    }
}
