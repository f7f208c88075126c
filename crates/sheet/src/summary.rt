// The position sets of a rule, but for the follow sets.
#[derive(Clone, Copy)]
pub struct Summary {
    pub nullable: bool,
    pub first: u32,
    pub last: u32,
    pub leaves: usize,
}
