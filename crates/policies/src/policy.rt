ghost use Rattle.policies.specs.Orders.{Order, Decided, Replaced, Ranks};

use rules::Row;
use std::cmp::Ordering;

// Which of two readings of one stretch is preferred.
pub trait Policy {
    // For a rule's rows and a node: whether the first reading outranks the second.
    ghost above: { Self → Order };

    // Compares two readings at a node: greater where the first outranks the second.
    // Rows and node are two parameters, since a struct of both would be made for this call alone.
    fn rank(
        &self,
        rows: &[Row],
        node: usize,
        first: &[Option<(usize, usize)>],
        second: &[Option<(usize, usize)>],
    ) -> Ordering
        ensures { Ranks (above self.now) rows.now node first.now second.now result };

    ghost decided: { (self : Self) → Decided (above self) };

    ghost replaced: { (self : Self) → Replaced (above self) };
}
