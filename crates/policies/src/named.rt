ghost use Rattle.policies.specs.Named.{named_key, named_above};
ghost use Rattle.policies.specs.declared.named.NamedPolicy.TheVariants.{Posix, FirstLongest};
ghost use Rattle.policies.specs.KeyFacts.{posix_faithful, first_faithful};
ghost use Rattle.policies.specs.KeyOrder;
ghost use Rattle.policies.specs.Keys.{posix_key, first_key};

use crate::first_longest::FirstLongest;
use crate::keyed::Keyed;
use crate::policy::Policy;
use crate::posix::Posix;
use rules::Row;
use std::cmp::Ordering;

// One of the two policies that can be named, so that one sheet type serves both.
#[derive(Clone, Copy)]
pub enum NamedPolicy {
    Posix,
    FirstLongest,
}

impl Keyed for NamedPolicy {
    ghost key = { named_key };

    ghost faithful = { elim [ Posix ↦ posix_faithful | FirstLongest ↦ first_faithful ] };

    fn compare(&self, kind: u8, first: Option<usize>, second: Option<usize>) -> Ordering {
        match self {
            NamedPolicy::Posix => Posix.compare(kind, first, second),
            NamedPolicy::FirstLongest => FirstLongest.compare(kind, first, second),
        }
    }
}

impl Policy for NamedPolicy {
    ghost above = { named_above };

    ghost decided = { elim [ Posix ↦ KeyOrder.decided posix_faithful | FirstLongest ↦ KeyOrder.decided first_faithful ] };

    ghost replaced = { elim [ Posix ↦ KeyOrder.replaced posix_key | FirstLongest ↦ KeyOrder.replaced first_key ] };

    fn rank(
        &self,
        rows: &[Row],
        node: usize,
        first: &[Option<(usize, usize)>],
        second: &[Option<(usize, usize)>],
    ) -> Ordering {
        match self {
            NamedPolicy::Posix => Posix.rank(rows, node, first, second),
            NamedPolicy::FirstLongest => FirstLongest.rank(rows, node, first, second),
        }
    }
}
