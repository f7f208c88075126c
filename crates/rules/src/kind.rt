ghost use Rattle.rules.specs.Kinds.{KindOf};

use crate::denial::Denial;

// What a node is. An empty and a leaf have no parts, a choice and a sequence two, a star one.
#[derive(Clone, Copy, PartialEq, Eq, Debug)]
pub enum Kind {
    Empty = 0,
    Leaf = 1,
    Choice = 2,
    Sequence = 3,
    Star = 4,
}

impl TryFrom<u8> for Kind {
    type Error = Denial;

    ghost try_from_gives = { KindOf };

    fn try_from(number: u8) -> Result<Kind, Denial> {
        match number {
            0 => Ok(Kind::Empty),
            1 => Ok(Kind::Leaf),
            2 => Ok(Kind::Choice),
            3 => Ok(Kind::Sequence),
            4 => Ok(Kind::Star),
            _ => Err(Denial::UnknownKind),
        }
    }
}
