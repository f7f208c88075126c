ghost use Rattle.std.specs.Prelude.{◌≡◌, ◌<◌, true, false, ◌≢◌, slice_set};
ghost use Rattle.matcher.specs.Cells.{cell_byte, CellOf};
ghost use Rattle.matcher.specs.Frames.{Laid, Blank, On, spot_cell, spot_place};
ghost use Rattle.matcher.specs.States.{BothCoded};

use crate::frame::{Frame, Spot};

// What a cell holds: nothing known, that its node has its stretch or lacks it, or the code of the best reading. A code stays a
// byte, since the bench is bytes that a caller lends, and it is a part's number or a split's, as its node is a choice or a sequence.
#[derive(Clone, Copy, PartialEq, Eq)]
pub(crate) enum Cell {
    Unknown,
    Has,
    Lacks,
    Code(u8),
}

impl From<u8> for Cell {
    ghost from_gives = { CellOf };

    fn from(byte: u8) -> Cell {
        match byte {
            0 => Cell::Unknown,
            254 => Cell::Has,
            255 => Cell::Lacks,
            code => Cell::Code(code),
        }
    }
}

impl Cell {
    fn byte(self) -> u8
        ensures { result ≡ cell_byte self }
    {
        match self {
            Cell::Unknown => 0,
            Cell::Has => 254,
            Cell::Lacks => 255,
            Cell::Code(code) => code,
        }
    }
}

// Frame and bench stay apart: a struct of both would have to say in each call that writes that the frame is the same, and would stand
// beside the search, which has the frame too. A spot is of no one frame.
impl Frame<'_> {
    // Where the cell of a spot stands.
    fn place(&self, spot: Spot) -> usize
        requires { On self.now spot }
        ensures { result ≡ spot_place self.now spot }
    {
        let wide = self.symbols + 1;
        (spot.node * wide + spot.start) * wide + spot.end
    }

    // The byte of a spot's cell.
    pub(crate) fn byte(&self, bench: &[u8], spot: Spot) -> u8
        requires room { Laid self.now bench.now }
        requires on { On self.now spot }
        ensures { result ≡ spot_cell self.now bench.now spot }
    {
        bench[self.place(spot)]
    }

    // What the bench knows of a spot.
    pub(crate) fn look(&self, bench: &[u8], spot: Spot) -> Cell
        requires room { Laid self.now bench.now }
        requires on { On self.now spot }
        ensures { CellOf (spot_cell self.now bench.now spot) result }
    {
        Cell::from(self.byte(bench, spot))
    }

    // Lets nothing be known of any spot.
    pub(crate) fn wipe(&self, bench: &mut [u8])
        requires { Laid self.now bench.old }
        ensures { Blank self.now bench.new }
    {
        let wide = self.symbols + 1;
        let cells = self.rows().len() * wide * wide;
        bench[..cells].fill(Cell::Unknown.byte());
    }

    // Writes the mark of what was found, where nothing is known yet.
    pub(crate) fn mark(&self, bench: &mut [u8], spot: Spot, found: bool)
        requires room { Laid self.now bench.old }
        requires on { On self.now spot }
        ensures known { (spot_cell self.now bench.old spot ≢ 0) → bench.new ≡ bench.old }
        ensures yes { spot_cell self.now bench.old spot ≡ 0 → found ≡ true → bench.new ≡ slice_set bench.old (spot_place self.now spot) 254 }
        ensures no { spot_cell self.now bench.old spot ≡ 0 → found ≡ false → bench.new ≡ slice_set bench.old (spot_place self.now spot) 255 }
    {
        if self.look(bench, spot) == Cell::Unknown {
            let cell = if found { Cell::Has } else { Cell::Lacks };
            bench[self.place(spot)] = cell.byte();
        }
    }

    // Writes the code of a spot, unless the bench has one.
    pub(crate) fn put(&self, bench: &mut [u8], spot: Spot, code: u8)
        requires room { Laid self.now bench.old }
        requires on { On self.now spot }
        ensures known { 0 < spot_cell self.now bench.old spot → spot_cell self.now bench.old spot < 254 → bench.new ≡ bench.old }
        ensures fresh { (0 < spot_cell self.now bench.old spot → spot_cell self.now bench.old spot < 254 → ⊥) → bench.new ≡ slice_set bench.old (spot_place self.now spot) code }
    {
        match self.look(bench, spot) {
            Cell::Code(_) => {}
            _ => bench[self.place(spot)] = code,
        }
    }

    // Whether the bench has codes for both halves of a split.
    pub(crate) fn both_coded(&self, bench: &[u8], first: Spot, second: Spot) -> bool
        requires room { Laid self.now bench.now }
        requires first { On self.now first }
        requires second { On self.now second }
        requires meet { first.end ≡ second.start }
        ensures yes { result ≡ true → BothCoded self.now.symbols bench.now first.node second.node first.start first.end second.end }
        ensures no { result ≡ false → BothCoded self.now.symbols bench.now first.node second.node first.start first.end second.end → ⊥ }
    {
        matches!(self.look(bench, first), Cell::Code(_))
            && matches!(self.look(bench, second), Cell::Code(_))
    }
}
