ghost use Rattle.std.specs.Prelude.{◌≡◌, [], IfOk};
ghost use Rattle.rules.specs.Denials.{numbered};
ghost use Rattle.sheet.specs.Changes.{add_answer, added, drop_answer, dropped};
ghost use Rattle.sheet.specs.Sheets.{holding, locked};

use super::{Kept, LockedSheet, OpenSheet};
use crate::held::Held;
use rules::{Alphabet, Denial, Row, Rule};
use std::alloc::{AllocError, Global};

impl<A: Drop, P: Drop> OpenSheet<A, P> {
    // A sheet that holds no rule. It asks for all the memory that it will ever need.
    pub fn open(heap: Global, alphabet: A, policy: P) -> Result<OpenSheet<A, P>, AllocError>
        ensures { IfOk result (λ s. (holding s ≡ []) × (s.kept.alphabet ≡ alphabet) × (s.kept.policy ≡ policy)) }
    {
        let rules = Vec::with_capacity(heap, 16)?;
        let kept = Kept {
            alphabet,
            policy,
            rules,
        };
        Ok(OpenSheet { kept })
    }
}

impl<A: Alphabet, P> OpenSheet<A, P> {
    // The rule that the rows are stands last, and its place is returned.
    pub fn add(&mut self, rows: &[Row]) -> Result<usize, Denial>
        ensures answer { numbered result ≡ add_answer (A.Alphabet.admitted self.old.kept.alphabet) (holding self.old) rows.now }
        ensures after { holding self.new ≡ added (A.Alphabet.admitted self.old.kept.alphabet) (holding self.old) rows.now }
        ensures alphabet { self.new.kept.alphabet ≡ self.old.kept.alphabet }
        ensures policy { self.new.kept.policy ≡ self.old.kept.policy }
    {
        let place = self.kept.rules.len();
        if place >= 16 {
            return Err(Denial::SheetFull);
        }
        let rule = Rule::checked(&self.kept.alphabet, rows)?;
        self.kept.rules.push_reserved(Held::new(rule));
        Ok(place)
    }
}

impl<A, P> OpenSheet<A, P> {
    // Takes the rule at a place out; later ones move down by one.
    pub fn drop(&mut self, place: usize) -> Result<(), Denial>
        ensures answer { numbered result ≡ drop_answer (holding self.old) place }
        ensures after { holding self.new ≡ dropped (holding self.old) place }
        ensures alphabet { self.new.kept.alphabet ≡ self.old.kept.alphabet }
        ensures policy { self.new.kept.policy ≡ self.old.kept.policy }
    {
        if place >= self.kept.rules.len() {
            return Err(Denial::NoSuchPlace);
        }
        self.kept.rules.remove(place);
        Ok(())
    }

    pub fn lock(self) -> LockedSheet<A, P>
        ensures { (locked result ≡ holding self) × (result.kept.alphabet ≡ self.kept.alphabet) × (result.kept.policy ≡ self.kept.policy) }
    {
        LockedSheet { kept: self.kept }
    }
}

impl<A, P> LockedSheet<A, P> {
    pub fn unlock(self) -> OpenSheet<A, P>
        ensures { (holding result ≡ locked self) × (result.kept.alphabet ≡ self.kept.alphabet) × (result.kept.policy ≡ self.kept.policy) }
    {
        OpenSheet { kept: self.kept }
    }
}
