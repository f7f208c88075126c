ghost use Rattle.std.specs.Prelude.{◌≡◌, ◌+◌, ◌<◌, ◌≤◌, length, slice_index_or};
ghost use Rattle.rules.specs.Kinds.{kind_number};
ghost use Rattle.rules.specs.Trees.{Tree, row as Line, size};
ghost use Rattle.rules.specs.RuleRows.{rule_rows};
ghost use Rattle.matcher.specs.Frames.{frame_rows, frame_kind, second_node};
ghost use Rattle.rules.specs.Nodes.{Stands};
ghost use Rattle.matcher.specs.Sizes.{Sized, SizedFrom, Paired, PairRoom};

use super::{Frame, Spot};
use rules::{Kind, Row, Rule};

// The kind of a rule's node. `positions` tells it for itself too: a public method would have to answer for a node that is not there.
fn kind_at(rule: &Rule, node: usize) -> Kind
    requires { node < length (rule_rows rule.now) }
    ensures { kind_number result ≡ (slice_index_or (rule_rows rule.now) node (Line 0 0 0)).kind }
{
    match Kind::try_from(rule.rows()[node].kind) {
        Ok(kind) => kind,
        Err(_) => unreachable(),
    }
}

// The size of the tree at a node, from the sizes of those behind it.
fn size_at(rule: &Rule, sizes: &[u8], node: usize) -> u8
    requires inside { node < length (rule_rows rule.now) }
    requires behind { SizedFrom (rule_rows rule.now) (node + 1) sizes.now }
    ensures { (s : Tree) → Stands (rule_rows rule.now) node s → result ≡ size s }
{
    match kind_at(rule, node) {
        Kind::Empty | Kind::Leaf => 1,
        Kind::Star => 1 + sizes[node + 1],
        Kind::Choice | Kind::Sequence => {
            let first = sizes[node + 1];
            1 + first + sizes[node + 1 + first as usize]
        }
    }
}

// The size of each node's tree.
fn sizes(rule: &Rule) -> [u8; 64]
    ensures { Sized (rule_rows rule.now) result }
{
    let mut sizes = [0; 64];
    // Nodes go by their numbers, since a size comes from those that stand behind it.
    for node in (0..rule.rows().len()).rev() {
        sizes[node] = size_at(rule, &sizes, node);
    }
    sizes
}

impl<'a> Frame<'a> {
    pub(crate) fn new(rule: &'a Rule, symbols: usize) -> Frame<'a>
        requires { symbols ≤ 120 }
        ensures rows { frame_rows result ≡ rule_rows rule.now }
        ensures symbols { result.symbols ≡ symbols }
    {
        let sizes = sizes(rule);
        Frame {
            rule,
            sizes,
            symbols,
        }
    }

    pub(crate) fn rows(&self) -> &[Row]
        ensures { result.now ≡ frame_rows self.now }
    {
        self.rule.rows()
    }

    // The kind of a node.
    pub(crate) fn kind(&self, node: usize) -> Kind
        requires { node < length (frame_rows self.now) }
        ensures { kind_number result ≡ frame_kind self.now node }
    {
        kind_at(self.rule, node)
    }

    // The node of the second part of a choice or a sequence.
    pub(crate) fn second(&self, node: usize) -> usize
        requires inside { node < length (frame_rows self.now) }
        requires pair { Paired (frame_kind self.now node) }
        ensures is { result ≡ second_node self.now node }
        ensures within { PairRoom (frame_rows self.now) self.now.sizes node }
    {
        node + 1 + self.sizes[node + 1] as usize
    }

    // The two parts of a choice or a sequence, on the node's own stretch.
    pub(crate) fn parts(&self, spot: Spot) -> (Spot, Spot)
        requires inside { spot.node < length (frame_rows self.now) }
        requires pair { Paired (frame_kind self.now spot.node) }
        ensures first { result.0 ≡ record spot { node = spot.node + 1 } }
        ensures second { result.1 ≡ record spot { node = second_node self.now spot.node } }
        ensures within { PairRoom (frame_rows self.now) self.now.sizes spot.node }
    {
        let first = Spot {
            node: spot.node + 1,
            ..spot
        };
        let second = Spot {
            node: self.second(spot.node),
            ..spot
        };
        (first, second)
    }
}
