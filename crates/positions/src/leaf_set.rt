ghost use Rattle.std.specs.Prelude.{◌≡◌};
ghost use Rattle.std.specs.Iterator.{at_most};
ghost use Rattle.positions.specs.Positions.{member};
ghost use Rattle.positions.specs.LeafSets.{TakesLowest};

// Whether leaf p is in the set.
pub fn member(set: u32, p: usize) -> bool
    ensures { result ≡ member set p }
{
    p < 32 && set >> p & 1 == 1
}

// The leaves of a set, lowest first.
#[derive(Drop)]
pub(crate) struct Leaves(pub u32);

impl Iterator for Leaves {
    type Item = usize;

    ghost next_gives = { TakesLowest };

    ghost remaining = { λ s. at_most s.0 };

    fn next(&mut self) -> Option<usize> {
        if self.0 == 0 {
            return None;
        }
        let p = self.0.trailing_zeros() as usize;
        self.0 &= !(1 << p);
        Some(p)
    }
}
