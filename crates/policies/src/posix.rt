ghost use Rattle.policies.specs.Keys.{posix_key, posix_above};
ghost use Rattle.policies.specs.KeyFacts.{posix_faithful};
ghost use Rattle.policies.specs.KeyOrder;

use crate::keyed::{Keyed, rank_by_keys};
use crate::policy::Policy;
use rules::Row;
use std::cmp::Ordering;

// Each node in turn takes as much as it can.
#[derive(Clone, Copy)]
pub struct Posix;

impl Keyed for Posix {
    ghost key = { λ _. posix_key };

    ghost faithful = { λ _. posix_faithful };

    fn compare(&self, _kind: u8, first: Option<usize>, second: Option<usize>) -> Ordering {
        first.cmp(&second)
    }
}

impl Policy for Posix {
    ghost above = { λ _. posix_above };

    ghost decided = { λ self. KeyOrder.decided posix_faithful };

    ghost replaced = { λ self. KeyOrder.replaced posix_key };

    fn rank(
        &self,
        rows: &[Row],
        node: usize,
        first: &[Option<(usize, usize)>],
        second: &[Option<(usize, usize)>],
    ) -> Ordering {
        rank_by_keys(self, rows, node, first, second)
    }
}
