ghost use Rattle.std.specs.Prelude.{◌≡◌, ◌≢◌, ℕ, ◌-◌, true, false, length, take, Option, MatchOption, IfSome, Contains, All, option_map, slice_get};
ghost use Rattle.std.specs.Cmp.Lexicographic.{slice_cmp};
ghost use Rattle.rules.specs.declared.row.Row.{Row};
ghost use Rattle.cases.specs.Keys.{keys, key_of, node_keys, above, over};
ghost use Rattle.cases.specs.Sizes.{EachHas};

use crate::tree::{Entry, Reading};
use rules::{Kind, Row};
use std::cmp::Ordering;

// The key of a node where each is to be as long as can be: nothing is below every length. Written here anew, as the policies are
// checked by it.
pub fn every_node(_row: &Row, entry: &Entry) -> Option<usize>
    ensures { result ≡ option_map (λ s. s.1 - s.0) entry.now }
{
    entry.map(|(start, end)| end.saturating_sub(start))
}

// The key of a node where stars are to be as long as can be, and any other node is only to take part.
pub fn stars_only(row: &Row, entry: &Entry) -> Option<usize>
    ensures star { row.now.kind ≡ 4 → result ≡ option_map (λ s. s.1 - s.0) entry.now }
    ensures other { row.now.kind ≢ 4 → result ≡ option_map (λ s. 0) entry.now }
{
    match Kind::try_from(row.kind) {
        Ok(Kind::Star) => every_node(row, entry),
        _ => entry.map(|_| 0),
    }
}

// Compares two readings by a key of their nodes, at the first node whose keys differ.
pub(crate) fn compare_by<K: Fn(&Row, &Entry) -> Option<usize>>(
    key: K,
    rows: &[Row],
    first: &[Entry],
    second: &[Entry],
) -> Ordering
    requires { K.IsAlwaysCallable key }
    ensures { (f : Row → Option (ℕ × ℕ) → Option ℕ) → ((x : _) (y : _) (k : _) → K.post key x y k → k ≡ f x.now y.now) → result ≡ slice_cmp ⟦<Option<usize> as Ord>⟧.cmp (keys f rows.now first.now) (keys f rows.now second.now) }
{
    let first = rows.iter().zip(first).map(|(row, entry)| key(row, entry));
    let second = rows.iter().zip(second).map(|(row, entry)| key(row, entry));
    first.cmp(second)
}

// The reading that no other is above, among those listed. Proved is that it is one of them; that none is above it is tested. Inside
// the crate: it calls what it is given, so it has a `requires`, and no public function has one.
pub(crate) fn best_by<'a, F: Fn(&[Entry], &[Entry]) -> Ordering>(
    compare: F,
    all: &'a [Reading],
) -> Option<&'a Reading>
    requires { F.IsAlwaysCallable compare }
    ensures { MatchOption result (length all.now ≡ 0) (λ r. Contains all.now r.now) }
{
    all.iter().max_by(|a, b| compare(a, b))
}

// Which keys readings are compared by: the length of each node, or that of the stars alone. A node that takes part is above one
// that does not.
#[derive(Clone, Copy)]
pub enum Keys {
    EveryNode,
    StarsOnly,
}

// The key of a node as a number, 0 for nothing. It saturates, so the largest length and the one below it count alike.
fn key(keys: Keys, row: &Row, entry: &Entry) -> usize
    ensures { result ≡ key_of keys row.now entry.now }
{
    let long = match keys {
        Keys::EveryNode => every_node(row, entry),
        Keys::StarsOnly => stars_only(row, entry),
    };
    long.map_or(0, |long| long.saturating_add(1))
}

// Whether the first node whose keys differ, of those that both readings have, has the greater key in the first.
fn is_above(keys: Keys, rows: &[Row], first: &[Entry], second: &[Entry]) -> bool
    ensures { result ≡ above (node_keys keys rows.now first.now) (node_keys keys rows.now second.now) }
{
    let nodes = first.len().min(second.len());
    compare_by(
        |row, entry| Some(key(keys, row, entry)),
        rows,
        &first[..nodes],
        &second[..nodes],
    )
    .is_gt()
}

// Whether the first reading is above the second or, for the opposite, below it.
fn outranks(keys: Keys, opposite: bool, rows: &[Row], first: &[Entry], second: &[Entry]) -> bool
    ensures { result ≡ over opposite (node_keys keys rows.now first.now) (node_keys keys rows.now second.now) }
{
    if opposite {
        is_above(keys, rows, second, first)
    } else {
        is_above(keys, rows, first, second)
    }
}

// The place of a listed reading that no other is above or, for the opposite, below. Where all have as many entries it is the first of
// equals.
pub fn best(keys: Keys, opposite: bool, rows: &[Row], all: &[Reading]) -> usize
    ensures none { length all.now ≡ 0 → result ≡ 0 }
    ensures unsurpassed { MatchOption (slice_get all.now result) (length all.now ≡ 0) (λ r. All (λ other. over opposite (node_keys keys rows.now other.items) (node_keys keys rows.now r.items) ≡ false) all.now) }
    ensures first { (n : ℕ) → EachHas n all.now → IfSome (slice_get all.now result) (λ r. All (λ other. over opposite (node_keys keys rows.now r.items) (node_keys keys rows.now other.items) ≡ true) (take result all.now)) }
{
    let mut best = 0;
    for at in 1..all.len() {
        if outranks(keys, opposite, rows, &all[at], &all[best]) {
            best = at;
        }
    }
    best
}
