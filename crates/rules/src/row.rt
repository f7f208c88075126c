ghost use Rattle.std.specs.Prelude.{◌≡◌};
ghost use Rattle.rules.specs.Kinds.{RowOf};
ghost use Rattle.rules.specs.Trees.{row};

use crate::kind::Kind;

// One node of a rule: the number of its kind and, at a leaf, the two numbers that say which symbols it holds. A row may come
// from outside with any number there, so its kind is no `Kind` yet.
#[derive(Clone, Copy, PartialEq, Eq, Debug)]
pub struct Row {
    pub kind: u8,
    pub lo: u32,
    pub hi: u32,
}

// `new` and `inner` take any number, since rows may come from outside; `Rule::checked` says whether it is a kind's.
impl Row {
    pub fn new(kind: u8, lo: u32, hi: u32) -> Row
        ensures { result ≡ row kind lo hi }
    {
        Row { kind, lo, hi }
    }

    // The row of a leaf.
    pub fn leaf(lo: u32, hi: u32) -> Row
        ensures { result ≡ row 1 lo hi }
    {
        Row::new(Kind::Leaf as u8, lo, hi)
    }

    // The row of a node that is no leaf.
    pub fn inner(kind: u8) -> Row
        ensures { result ≡ row kind 0 0 }
    {
        Row::new(kind, 0, 0)
    }
}

// The row of a node of the kind; lo and hi are 0.
impl From<Kind> for Row {
    ghost from_gives = { RowOf };

    fn from(kind: Kind) -> Row {
        Row::inner(kind as u8)
    }
}
