ghost use Rattle.std.specs.Prelude.{◌≡◌, length};
ghost use Rattle.std.specs.Option.{unwrap_or};
ghost use Rattle.std.specs.declared.cmp.Ordering.TheVariants.{Equal};
ghost use Rattle.policies.specs.Keys.{Key, Faithful, NodesCompare, KeysCompare, above_by, extent, keys};
ghost use Rattle.policies.specs.Orders.{Ranks};

use rules::Row;
use std::cmp::Ordering;

// A key for each node of a reading: the first node whose keys differ decides.
pub trait Keyed {
    ghost key: { Self → Key };

    // Compares the keys of two stretches, by their lengths or nothing, at a node of the kind.
    // The kind is a row's number, since a `Kind` would ask of callers that the number is a kind's.
    fn compare(&self, kind: u8, first: Option<usize>, second: Option<usize>) -> Ordering
        ensures { NodesCompare (key self.now) kind first second result };

    ghost faithful: { (self : Self) → Faithful (key self) };
}

// The length of a stretch.
fn length_of(entry: Option<(usize, usize)>) -> Option<usize>
    ensures { result ≡ extent entry }
{
    // Off readings the end may come before the start, so it saturates.
    entry.map(|(start, end)| end.saturating_sub(start))
}

// How two readings compare at the first of these rows where their keys differ.
fn first_unequal<K: Keyed>(
    keyed: &K,
    rows: &[Row],
    first: &[Option<(usize, usize)>],
    second: &[Option<(usize, usize)>],
) -> Option<Ordering>
    ensures { length first.now ≡ length second.now → KeysCompare (keys (K.key keyed.now) rows.now first.now) (keys (K.key keyed.now) rows.now second.now) (unwrap_or result Equal) }
{
    rows.iter()
        .zip(first)
        .zip(second)
        .map(|((row, a), b)| keyed.compare(row.kind, length_of(*a), length_of(*b)))
        .find(|order| order.is_ne())
}

// The rank of every policy that goes by keys.
pub fn rank_by_keys<K: Keyed>(
    keyed: &K,
    rows: &[Row],
    node: usize,
    first: &[Option<(usize, usize)>],
    second: &[Option<(usize, usize)>],
) -> Ordering
    ensures { Ranks (above_by (K.key keyed.now)) rows.now node first.now second.now result }
{
    let from = node.min(rows.len());
    match first_unequal(keyed, &rows[from..], first, second) {
        Some(order) => order,
        None => Ordering::Equal,
    }
}
