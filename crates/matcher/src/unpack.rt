ghost use Rattle.std.specs.Prelude.{◌≡◌, ◌<◌, ◌≤◌, length, slice_index};
ghost use Rattle.rules.specs.Kinds.{kind_number};
ghost use Rattle.rules.specs.Trees.{Tree};
ghost use Rattle.matcher.specs.Frames.{frame_rows, Laid};
ghost use Rattle.rules.specs.Nodes.{Stands};
ghost use Rattle.matcher.specs.Unpacking.{Within, cut as Cut, first_share, second_share, code_at, unpacked};

use crate::frame::{Frame, Spot};
use rules::Kind;

// In this file a code stays a byte, since a cell of the bench is one, and a stretch an Option of a pair, since a report's entry is. The
// code is 0 where there is no stretch: that nothing was taken is said by the stretch, and the code is not looked at.

// Where a sequence's code cuts the stretch: 1 at its start, and each next code one symbol on.
fn cut(start: usize, end: usize, code: u8) -> usize
    requires order { start ≤ end }
    requires short { end ≤ 120 }
    ensures is { result ≡ Cut start end code }
    ensures above { start ≤ result }
    ensures below { result ≤ end }
{
    (start + (code as usize).saturating_sub(1)).min(end)
}

// The stretches of the two parts of a choice or a sequence.
fn shares(
    kind: Kind,
    stretch: Option<(usize, usize)>,
    code: u8,
) -> (Option<(usize, usize)>, Option<(usize, usize)>)
    requires { Within 120 stretch }
    ensures first { result.0 ≡ first_share (kind_number kind) stretch code }
    ensures second { result.1 ≡ second_share (kind_number kind) stretch code }
{
    let Some((start, end)) = stretch else {
        return (None, None);
    };
    if kind == Kind::Sequence {
        let at = cut(start, end, code);
        return (Some((start, at)), Some((at, end)));
    }
    if code == 1 {
        (stretch, None)
    } else {
        (None, stretch)
    }
}

impl Frame<'_> {
    // The byte of the cell for a node's stretch, or 0 where it has none.
    fn code_at(&self, bench: &[u8], node: usize, stretch: Option<(usize, usize)>) -> u8
        requires room { Laid self.now bench.now }
        requires inside { node < length (frame_rows self.now) }
        requires within { Within self.now.symbols stretch }
        ensures { result ≡ code_at self.now.symbols bench.now node stretch }
    {
        match stretch {
            Some((start, end)) => self.byte(bench, Spot { node, start, end }),
            None => 0,
        }
    }

    // Writes the reading that the bench holds for the node on a stretch, where the node's own code is given. No spot: a node below
    // a part that was not taken has no stretch.
    pub(crate) fn unpack(
        &self,
        bench: &[u8],
        node: usize,
        stretch: Option<(usize, usize)>,
        code: u8,
        out: &mut [Option<(usize, usize)>],
    )
        requires room { Laid self.now bench.now }
        requires inside { node < length (frame_rows self.now) }
        requires within { Within self.now.symbols stretch }
        requires long { length out.old ≡ slice_index self.now.sizes node }
        ensures { (s : Tree) → Stands (frame_rows self.now) node s → out.new ≡ unpacked self.now.symbols bench.now s node stretch code }
    {
        out[0] = stretch;
        match self.kind(node) {
            Kind::Empty | Kind::Leaf => {}
            Kind::Star => self.unpack(bench, node + 1, None, 0, &mut out[1..]),
            kind @ (Kind::Choice | Kind::Sequence) => {
                let first = node + 1;
                let second = self.second(node);
                let size = self.sizes[first] as usize;
                let (one, two) = shares(kind, stretch, code);
                let left = self.code_at(bench, first, one);
                self.unpack(bench, first, one, left, &mut out[1..1 + size]);
                let right = self.code_at(bench, second, two);
                self.unpack(bench, second, two, right, &mut out[1 + size..]);
            }
        }
    }
}
