ghost use Rattle.policies.specs.Keys.{first_key, first_above};
ghost use Rattle.policies.specs.KeyFacts.{first_faithful};
ghost use Rattle.policies.specs.KeyOrder;

use crate::keyed::{Keyed, rank_by_keys};
use crate::policy::Policy;
use rules::{Kind, Row};
use std::cmp::Ordering;

// The first part of a choice that can be read, and at a star as much as it can.
#[derive(Clone, Copy)]
pub struct FirstLongest;

impl Keyed for FirstLongest {
    ghost key = { λ _. first_key };

    ghost faithful = { λ _. first_faithful };

    fn compare(&self, kind: u8, first: Option<usize>, second: Option<usize>) -> Ordering {
        match Kind::try_from(kind) {
            Ok(Kind::Star) => first.cmp(&second),
            _ => first.is_some().cmp(&second.is_some()),
        }
    }
}

impl Policy for FirstLongest {
    ghost above = { λ _. first_above };

    ghost decided = { λ self. KeyOrder.decided first_faithful };

    ghost replaced = { λ self. KeyOrder.replaced first_key };

    fn rank(
        &self,
        rows: &[Row],
        node: usize,
        first: &[Option<(usize, usize)>],
        second: &[Option<(usize, usize)>],
    ) -> Ordering {
        rank_by_keys(self, rows, node, first, second)
    }
}
