ghost use Rattle.std.specs.Prelude.{◌≡◌, ◌<◌};
ghost use Rattle.positions.specs.Positions.{followed};
ghost use Rattle.positions.specs.Visits.{Placed, Visited, both, either, empty_part, leaf_part};

use crate::leaf_set::Leaves;
use rules::{Kind, Row};

// What the visit of a node tells of the part of the rule that stands there, and the numbers of the next node and leaf.
#[derive(Clone, Copy)]
pub(crate) struct Part {
    pub nullable: bool,
    pub first: u32,
    pub last: u32,
    pub next_node: usize,
    pub next_leaf: usize,
}

// An empty.
fn empty_part(next_node: usize, next_leaf: usize) -> Part
    ensures { result ≡ empty_part next_node next_leaf }
{
    Part {
        nullable: true,
        first: 0,
        last: 0,
        next_node,
        next_leaf,
    }
}

// A leaf, which has the given number.
fn leaf_part(next_node: usize, leaf: usize) -> Part
    requires { leaf < 32 }
    ensures { result ≡ leaf_part next_node leaf }
{
    let bit = 1 << leaf;
    Part {
        nullable: false,
        first: bit,
        last: bit,
        next_node,
        next_leaf: leaf + 1,
    }
}

// Each leaf of the set is followed by the leaves of more too.
fn link(follow: &mut [u32], set: u32, more: u32)
    ensures { follow.new ≡ followed set more 0 follow.old }
{
    for p in Leaves(set) {
        if p < follow.len() {
            follow[p] |= more;
        }
    }
}

// A choice of two parts.
fn either(one: Part, two: Part) -> Part
    ensures { result ≡ either one two }
{
    Part {
        nullable: one.nullable || two.nullable,
        first: one.first | two.first,
        last: one.last | two.last,
        next_node: two.next_node,
        next_leaf: two.next_leaf,
    }
}

// Two parts in sequence.
fn both(one: Part, two: Part) -> Part
    ensures { result ≡ both one two }
{
    let more_first = if one.nullable { two.first } else { 0 };
    let more_last = if two.nullable { one.last } else { 0 };
    Part {
        nullable: one.nullable && two.nullable,
        first: one.first | more_first,
        last: more_last | two.last,
        next_node: two.next_node,
        next_leaf: two.next_leaf,
    }
}

// Visits the part of the rule at a node, whose first leaf has the given number, and writes its leaves' follow sets.
// One visit of a first part and one of a second serve all kinds, since each takes room in every visit's frame.
pub(crate) fn visit(rows: &[Row], node: usize, leaf: usize, follow: &mut [u32]) -> Part
    requires { Placed rows.now node leaf }
    ensures { Visited rows.now node leaf follow.old result follow.new }
{
    let Ok(kind) = Kind::try_from(rows[node].kind) else {
        unreachable()
    };
    let next = node + 1;
    let one = match kind {
        Kind::Empty => return empty_part(next, leaf),
        Kind::Leaf => return leaf_part(next, leaf),
        _ => visit(rows, next, leaf, follow),
    };
    if let Kind::Star = kind {
        link(follow, one.last, one.first);
        return Part {
            nullable: true,
            ..one
        };
    }
    let two = visit(rows, one.next_node, one.next_leaf, follow);
    match kind {
        Kind::Choice => either(one, two),
        _ => {
            link(follow, one.last, two.first);
            both(one, two)
        }
    }
}
