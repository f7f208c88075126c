ghost use Rattle.std.specs.Prelude.{◌≡◌, ◌≤◌, ◌++◌, ◌↔◌, true, List, length};
ghost use Rattle.rules.specs.declared.row.Row.{Row};
ghost use Rattle.rules.specs.Checks.{parts};
ghost use Rattle.rules.specs.Trees.{Tree as RuleTree, Of, rows as tree_rows, size as tree_size};
ghost use Rattle.cases.specs.Names.{LeafHas, IsName, IsNameBefore};
ghost use Rattle.cases.specs.Sizes.{rows_taken};

use rules::{Kind, Row};

// How many parts a row has; one of no kind has none.
fn parts_of(row: &Row) -> usize
    ensures value { result ≡ parts row.now.kind }
    ensures few { result ≤ 2 }
{
    match Kind::try_from(row.kind) {
        Ok(Kind::Choice | Kind::Sequence) => 2,
        Ok(Kind::Star) => 1,
        _ => 0,
    }
}

// How many rows the tree has that begins these rows, or how many these are, if they end before it does.
pub fn tree_len(rows: &[Row]) -> usize
    ensures within { result ≤ length rows.now }
    ensures taken { result ≡ rows_taken 1 rows.now }
    ensures tree { (t : RuleTree) (rest : List Row) → rows.now ≡ tree_rows t ++ rest → result ≡ tree_size t }
{
    let mut open: usize = 1;
    for (at, row) in rows.iter().enumerate() {
        open = open - 1 + parts_of(row);
        if open == 0 {
            return at + 1;
        }
    }
    rows.len()
}

// Whether a leaf's row has the word.
pub fn leaf_has(row: Row, word: &[u8]) -> bool
    ensures { (result ≡ true) ↔ LeafHas row word.now }
{
    match word {
        [byte] => (row.lo..=row.hi).contains(&u32::from(*byte)),
        _ => false,
    }
}

// The rows of the tree that begins these rows, and those after it.
fn two_parts(rows: &[Row]) -> (&[Row], &[Row])
    ensures all { result.0.now ++ result.1.now ≡ rows.now }
    ensures trees { (p q : RuleTree) → rows.now ≡ tree_rows p ++ tree_rows q → (result.0.now ≡ tree_rows p) × (result.1.now ≡ tree_rows q) }
{
    rows.split_at(tree_len(rows))
}

// Whether the tree of these rows has the word, every split tried. A row of no kind is taken for a sequence.
#[cycle(membership)]
pub fn member(rows: &[Row], word: &[u8]) -> bool
    ensures { (t : RuleTree) → Of rows.now t → (result ≡ true) ↔ IsName t word.now }
{
    let [row, below @ ..] = rows else {
        return false;
    };
    match Kind::try_from(row.kind).unwrap_or(Kind::Sequence) {
        Kind::Empty => word.is_empty(),
        Kind::Leaf => leaf_has(*row, word),
        Kind::Choice => {
            let (first, second) = two_parts(below);
            member(first, word) || member(second, word)
        }
        Kind::Sequence => {
            let (first, second) = two_parts(below);
            member_before(first, second, word, 0)
        }
        Kind::Star => word.is_empty() || member_before(below, rows, word, 1),
    }
}

// Whether the first tree has a beginning of the word, of so many symbols at least, and the second the rest.
#[cycle(membership)]
fn member_before(first: &[Row], second: &[Row], word: &[u8], least: usize) -> bool
    ensures { (p q : RuleTree) → Of first.now p → Of second.now q → (result ≡ true) ↔ IsNameBefore p q word.now least }
{
    for k in least..=word.len() {
        if member(first, &word[..k]) && member(second, &word[k..]) {
            return true;
        }
    }
    false
}
