ghost use Rattle.std.specs.Prelude.{◌<◌, ◌≤◌, length};
ghost use Rattle.matcher.specs.Frames.{frame_rows};
ghost use Rattle.matcher.specs.States.{Reach};

use super::{Frame, Spot};
use rules::Kind;
use std::ops::Range;

impl Frame<'_> {
    // The splits of a stretch whose halves two nodes can have: the one that a symbol or nothing leaves, or each. The first node stands
    // on the whole stretch.
    pub(crate) fn splits(&self, first: Spot, second: usize) -> Range<usize>
        requires first { first.node < length (frame_rows self.now) }
        requires second { second < length (frame_rows self.now) }
        requires order { first.start ≤ first.end }
        requires short { first.end ≤ 120 }
        ensures { Reach (frame_rows self.now) first.node second first.start first.end result.start result.end }
    {
        let Spot { node, start, end } = first;
        match self.kind(node) {
            Kind::Empty => start..start + 1,
            // An empty second part is looked at first: it leaves one split, whether or not a symbol is there.
            Kind::Leaf => match self.kind(second) {
                Kind::Empty => end..end + 1,
                _ if start == end => end + 1..end + 1,
                _ => start + 1..start + 2,
            },
            Kind::Choice | Kind::Sequence | Kind::Star => match self.kind(second) {
                Kind::Empty => end..end + 1,
                Kind::Leaf if start == end => end + 1..end + 1,
                Kind::Leaf => end - 1..end,
                Kind::Choice | Kind::Sequence | Kind::Star => start..end + 1,
            },
        }
    }
}
