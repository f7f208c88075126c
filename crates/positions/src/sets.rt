ghost use Rattle.std.specs.Prelude.{◌≤◌};

pub mod compute;
pub mod run;
mod visit;

// The position sets of a rule. Leaves have numbers in node order, those under stars too, and a set has bit p for leaf p.
// The arrays are of fixed size, since a rule's sets are made with no heap, and two, since a sheet copies the follow sets as one slice.
#[derive(Clone, Copy)]
pub struct Positions {
    // Whether the rule takes the name of no symbol.
    pub nullable: bool,
    // The leaves that can come first.
    pub first: u32,
    // The leaves that can come last.
    pub last: u32,
    // How many leaves there are.
    pub count: usize,
    // For each leaf those that can come directly behind it.
    pub follow: [u32; 32],
    // The lo and hi of each leaf.
    pub leaves: [(u32, u32); 32],
    ghost few: { count ≤ 32 },
}
