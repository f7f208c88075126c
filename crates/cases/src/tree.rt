ghost use Rattle.std.specs.Prelude.{◌≡◌, ◌+◌, ◌∷◌, ◌++◌, ◌↔◌, true, List, length, IfOk, OnOk, IfSome, MatchOption, replicate, sum_by};
ghost use Rattle.rules.specs.declared.row.Row.{Row};
ghost use Rattle.rules.specs.Trees.{Tree as RuleTree, Of, rows as tree_rows};
ghost use Rattle.cases.specs.Names.{Has, HasBefore, ruled};
ghost use Rattle.cases.specs.Parts.{parts as tree_parts, stacked};
ghost use Rattle.cases.specs.Sizes.{size};

use rules::{Kind, Row};
use std::alloc::{AllocError, Global};

// The stretch that a node takes of a name, or nothing.
pub type Entry = Option<(usize, usize)>;

// An entry for each node, in node order.
pub type Reading = Vec<Entry>;

// A rule as a tree.
#[derive(Drop)]
pub enum Tree {
    Empty,
    Leaf { lo: u32, hi: u32 },
    Choice(Box<Tree>, Box<Tree>),
    Sequence(Box<Tree>, Box<Tree>),
    Star(Box<Tree>),
}

// The two trees that were pushed last, if there are two.
fn two_parts(
    heap: Global,
    parts: &mut Vec<Tree>,
) -> Result<Option<(Box<Tree>, Box<Tree>)>, AllocError>
    ensures size { IfOk result (λ o. IfSome o (λ p. size p.0.value + size p.1.value + sum_by size parts.new.items ≡ sum_by size parts.old.items)) }
    ensures parts { (p q : RuleTree) (rest : List RuleTree) → stacked parts.old.items ≡ p ∷ q ∷ rest → IfOk result (λ o. MatchOption o ⊥ (λ b. (ruled b.0.value ≡ p) × (ruled b.1.value ≡ q) × (stacked parts.new.items ≡ rest))) }
{
    let (Some(first), Some(second)) = (parts.pop(), parts.pop()) else {
        return Ok(None);
    };
    Ok(Some((Box::new(heap, first)?, Box::new(heap, second)?)))
}

// The tree of a row, over the trees of the rows after it, of which it takes its parts.
fn grown(heap: Global, row: &Row, parts: &mut Vec<Tree>) -> Result<Option<Tree>, AllocError>
    ensures size { IfOk result (λ o. IfSome o (λ t. size t + sum_by size parts.new.items ≡ 1 + sum_by size parts.old.items)) }
    ensures tree { (t : RuleTree) (below : List Row) (rest : List RuleTree) → tree_rows t ≡ row.now ∷ below → stacked parts.old.items ≡ tree_parts t ++ rest → IfOk result (λ o. MatchOption o ⊥ (λ s. (ruled s ≡ t) × (stacked parts.new.items ≡ rest))) }
{
    match Kind::try_from(row.kind) {
        Ok(Kind::Empty) => Ok(Some(Tree::Empty)),
        Ok(Kind::Leaf) => Ok(Some(Tree::Leaf {
            lo: row.lo,
            hi: row.hi,
        })),
        Ok(Kind::Choice) => Ok(two_parts(heap, parts)?.map(|(p, q)| Tree::Choice(p, q))),
        Ok(Kind::Sequence) => Ok(two_parts(heap, parts)?.map(|(p, q)| Tree::Sequence(p, q))),
        Ok(Kind::Star) => match parts.pop() {
            Some(part) => Ok(Some(Tree::Star(Box::new(heap, part)?))),
            None => Ok(None),
        },
        Err(_) => Ok(None),
    }
}

impl Tree {
    // The tree of these rows, if they are a tree's.
    pub fn of(heap: Global, rows: &[Row]) -> Result<Option<Tree>, AllocError>
        ensures size { IfOk result (λ o. IfSome o (λ t. size t ≡ length rows.now)) }
        ensures tree { (t : RuleTree) → Of rows.now t → IfOk result (λ o. MatchOption o ⊥ (λ s. ruled s ≡ t)) }
    {
        let mut parts = Vec::new(heap);
        for row in rows.iter().rev() {
            match grown(heap, row, &mut parts)? {
                Some(tree) => parts.push(tree)?,
                None => return Ok(None),
            }
        }
        let tree = parts.pop();
        Ok(if parts.is_empty() { tree } else { None })
    }

    // Whether the tree has the word, every split tried.
    #[cycle(membership)]
    pub fn has(&self, word: &[u8]) -> bool
        ensures { (result ≡ true) ↔ Has self.now word.now }
    {
        match self {
            Tree::Empty => word.is_empty(),
            Tree::Leaf { lo, hi } => match word {
                [byte] => (*lo..=*hi).contains(&u32::from(*byte)),
                _ => false,
            },
            Tree::Choice(p, q) => p.has(word) || q.has(word),
            Tree::Sequence(p, q) => p.has_before(q, word, 0),
            Tree::Star(p) => word.is_empty() || p.has_before(self, word, 1),
        }
    }

    // Whether the tree has a beginning of the word, of so many symbols at least, and the next tree the rest.
    // A loop, since by `any` the closure would be in the cycle of calls, with clauses of its own longer than this.
    #[cycle(membership)]
    fn has_before(&self, next: &Tree, word: &[u8], least: usize) -> bool
        ensures { (result ≡ true) ↔ HasBefore self.now next.now word.now least }
    {
        for k in least..=word.len() {
            if self.has(&word[..k]) && next.has(&word[k..]) {
                return true;
            }
        }
        false
    }

    // The entries of a tree that takes no part: one for each node, all nothing.
    pub(crate) fn nothing(&self, heap: Global) -> Result<Reading, AllocError>
        ensures { IfOk result (λ v. v.items ≡ replicate (size self.now) None) }
    {
        let mut entries = Vec::new(heap);
        self.push_nothing(&mut entries)?;
        Ok(entries)
    }

    fn push_nothing(&self, entries: &mut Reading) -> Result<(), AllocError>
        ensures { OnOk result (entries.new.items ≡ entries.old.items ++ replicate (size self.now) None) }
    {
        entries.push(None)?;
        match self {
            Tree::Empty | Tree::Leaf { .. } => Ok(()),
            Tree::Choice(p, q) | Tree::Sequence(p, q) => {
                p.push_nothing(entries)?;
                q.push_nothing(entries)
            }
            Tree::Star(p) => p.push_nothing(entries),
        }
    }
}
