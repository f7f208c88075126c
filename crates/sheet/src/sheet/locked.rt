ghost use Rattle.std.specs.Prelude.{◌≡◌, Some, None, MatchResult};
ghost use Rattle.std.specs.Option.{ok_or};
ghost use Rattle.rules.specs.Denials.{number};
ghost use Rattle.rules.specs.declared.denial.Denial.TheVariants.{NotRead};
ghost use Rattle.rules.specs.Languages.{seen};
ghost use Rattle.sheet.specs.Changes.{place_met};
ghost use Rattle.sheet.specs.Questions.{at, Governed, GovernAnswer, SetsAnswer, SpansAnswer, spans_met};
ghost use Rattle.sheet.specs.Sheets.{held_rows, locked};

use super::LockedSheet;
use super::checks::{check_bench, check_name, check_room};
use crate::held::Held;
use crate::summary::Summary;
use matcher::matching::{Unmatched, best_reading};
use policies::Policy;
use rules::{Alphabet, Denial};

impl<A, P> LockedSheet<A, P> {
    // 7: the place is not held.
    fn check_place(&self, place: usize) -> Result<&Held, Denial>
        ensures { MatchResult result (λ h. (place_met (locked self.now) place ≡ None) × (held_rows h.now ≡ at (locked self.now) place)) (λ d. place_met (locked self.now) place ≡ Some (number d)) }
    {
        self.kept.rules.get(place).ok_or(Denial::NoSuchPlace)
    }

    // The checks 7 to 10 of a spans, with a bench and a report of these lengths. The parameters here and below are the call's own.
    fn check_spans(
        &self,
        place: usize,
        symbols: usize,
        bench: usize,
        report: usize,
    ) -> Result<&Held, Denial>
        ensures { MatchResult result (λ h. (spans_met (locked self.now) place symbols bench report ≡ None) × (held_rows h.now ≡ at (locked self.now) place)) (λ d. spans_met (locked self.now) place symbols bench report ≡ Some (number d)) }
    {
        let held = self.check_place(place)?;
        check_name(symbols)?;
        let nodes = held.rule().rows().len();
        check_bench(nodes, symbols, bench)?;
        check_room(nodes, report)?;
        Ok(held)
    }

    // The position sets of the rule at a place: all but the follow sets are returned, and these are written.
    pub(crate) fn sets_at(&self, place: usize, masks: &mut [u32]) -> Result<Summary, Denial>
        ensures { SetsAnswer (locked self.now) place masks.old masks.new result }
    {
        let sets = self.check_place(place)?.sets();
        let count = sets.count;
        check_room(count, masks.len())?;
        masks[..count].copy_from_slice(&sets.follow[..count]);
        Ok(Summary {
            nullable: sets.nullable,
            first: sets.first,
            last: sets.last,
            leaves: count,
        })
    }
}

impl<A: Alphabet, P: Policy> LockedSheet<A, P> {
    // Writes the best reading of the name by the rule at a place. The language test is asked first.
    pub(crate) fn best_at(
        &self,
        place: usize,
        name: &[A::Symbol],
        bench: &mut [u8],
        report: &mut [Option<(usize, usize)>],
    ) -> Result<(), Denial>
        ensures { SpansAnswer (P.Policy.above self.now.kept.policy) (seen (A.Alphabet.held self.now.kept.alphabet) name.now) (locked self.now) place bench.old bench.new report.old report.new result }
    {
        let held = self.check_spans(place, name.len(), bench.len(), report.len())?;
        if !held.reads(&self.kept.alphabet, name) {
            return Err(Denial::NotRead);
        }
        match best_reading(
            &self.kept.alphabet,
            &self.kept.policy,
            held.rule(),
            name,
            bench,
            report,
        ) {
            Ok(()) => Ok(()),
            Err(Unmatched::NotRead) => Err(Denial::NotRead),
            Err(Unmatched::Unfit) => unreachable(),
        }
    }
}

impl<A: Alphabet, P> LockedSheet<A, P> {
    // The lowest place whose rule reads the name, of whatever length, if there is one.
    fn first_reading(&self, name: &[A::Symbol]) -> Option<usize>
        ensures { Governed None (locked self.now) (seen (A.Alphabet.held self.now.kept.alphabet) name.now) (ok_or result NotRead) }
    {
        self.kept
            .rules
            .iter()
            .position(|held| held.reads(&self.kept.alphabet, name))
    }

    // The lowest place whose rule reads the name.
    pub(crate) fn lowest(&self, name: &[A::Symbol]) -> Result<usize, Denial>
        ensures { GovernAnswer (locked self.now) (seen (A.Alphabet.held self.now.kept.alphabet) name.now) result }
    {
        check_name(name.len())?;
        match self.first_reading(name) {
            Some(place) => Ok(place),
            None => Err(Denial::NotRead),
        }
    }
}
