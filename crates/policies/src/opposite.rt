ghost use Rattle.policies.specs.Orders.{opposite};
ghost use Rattle.policies.specs.Opposites.{opposite_decided, opposite_replaced};

use crate::policy::Policy;
use rules::Row;
use std::cmp::Ordering;

// A policy whose order is turned round.
#[derive(Clone, Copy)]
pub struct Opposite<P> {
    pub policy: P,
}

impl<P: Policy> Policy for Opposite<P> {
    ghost above = { λ o. opposite (P.Policy.above o.policy) };

    ghost decided = { λ self. opposite_decided (P.Policy.above self.policy) (P.Policy.decided self.policy) };

    ghost replaced = { λ self. opposite_replaced (P.Policy.above self.policy) (P.Policy.replaced self.policy) };

    fn rank(
        &self,
        rows: &[Row],
        node: usize,
        first: &[Option<(usize, usize)>],
        second: &[Option<(usize, usize)>],
    ) -> Ordering {
        self.policy.rank(rows, node, second, first)
    }
}
