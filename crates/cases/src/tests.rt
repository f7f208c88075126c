use crate::lister::readings;
use crate::membership::{leaf_has, member, tree_len};
use crate::pick::{Keys, best, best_by, compare_by, every_node, stars_only};
use crate::tree::{Entry, Reading, Tree};
use matcher::{Unmatched, best_reading};
use policies::{FirstLongest, Opposite, Policy, Posix};
use rules::alphabet::Bytes;
use rules::{Kind, Row, Rule};
use std::alloc::Global;
use std::array;
use std::process::Abort;
use std::test::Fail;

// An entry that no reading has: what a report holds before.
const BEFORE: Entry = Some((9, 8));

// The report begins with the reading, and is as it was behind it.
fn shows(report: &[Entry], reading: &[Entry]) -> bool {
    report
        .strip_prefix(reading)
        .is_some_and(|rest| rest.iter().all(|entry| *entry == BEFORE))
}

// A name by a rule.
#[derive(Clone, Copy)]
struct Case<'a> {
    rule: &'a Rule,
    name: &'a [u8],
}

impl Case<'_> {
    // The policy finds this reading, or none.
    fn agrees<P: Policy>(&self, rt: &impl Abort, policy: &P, want: Option<&Reading>) {
        let mut bench = [7; 512];
        let mut report = [BEFORE; 16];
        let answer = best_reading(
            &Bytes,
            policy,
            self.rule,
            self.name,
            &mut bench,
            &mut report,
        );
        match want {
            Some(reading) => {
                assert_eq!(rt; answer, Ok(()));
                assert!(rt; shows(&report, reading));
            }
            None => {
                assert_eq!(rt; answer, Err(Unmatched::NotRead));
                assert!(rt; shows(&report, &[]));
            }
        }
    }
}

// Four letters by the digits of a number, 0 for a and 1 for b.
fn letters(number: usize) -> [u8; 4] {
    array::from_fn(|at| if (number >> at) % 2 == 1 { b'b' } else { b'a' })
}

// A rule, and the tree that lists its readings.
#[derive(Clone, Copy)]
struct Subject<'a> {
    rule: &'a Rule,
    tree: &'a Tree,
}

impl Subject<'_> {
    // Each of four policies finds what the list of all readings gives.
    fn agrees_on(&self, rt: &impl Abort, heap: Global, name: &[u8]) -> Result<(), Fail> {
        let all = self.tree.readings(heap, name)?;
        let rows = self.rule.rows();
        let case = Case {
            rule: self.rule,
            name,
        };
        let want = best_by(|a, b| compare_by(every_node, rows, a, b), &all);
        case.agrees(rt, &Posix, want);
        let want = best_by(|a, b| compare_by(stars_only, rows, a, b), &all);
        case.agrees(rt, &FirstLongest, want);
        let least = Opposite { policy: Posix };
        let want = best_by(|a, b| compare_by(every_node, rows, b, a), &all);
        case.agrees(rt, &least, want);
        let least = Opposite {
            policy: FirstLongest,
        };
        let want = best_by(|a, b| compare_by(stars_only, rows, b, a), &all);
        case.agrees(rt, &least, want);
        Ok(())
    }

    // The rule agrees on every name of a and b with so many symbols, at most four.
    fn agrees_at(&self, rt: &impl Abort, heap: Global, symbols: usize) -> Result<(), Fail> {
        (0..16).try_for_each(|number| {
            let name = letters(number);
            self.agrees_on(rt, heap, &name[..symbols.min(4)])
        })
    }
}

fn rule_agrees(rt: &impl Abort, heap: Global, rule: &Rule) -> Result<(), Fail> {
    let tree = Tree::of(heap, rule.rows())?.ok_or("no tree")?;
    let subject = Subject { rule, tree: &tree };
    (0..5).try_for_each(|symbols| subject.agrees_at(rt, heap, symbols))
}

fn row_of(digit: usize) -> Row {
    match digit {
        0 => Row::from(Kind::Empty),
        1 => Row::leaf(97, 97),
        2 => Row::leaf(98, 98),
        3 => Row::from(Kind::Choice),
        4 => Row::from(Kind::Sequence),
        _ => Row::from(Kind::Star),
    }
}

// Five rows by the digits of a number.
fn rows_of(number: usize) -> [Row; 5] {
    let mut rows = [Row::from(Kind::Empty); 5];
    let mut rest = number;
    for row in &mut rows {
        *row = row_of(rest % 6);
        rest /= 6;
    }
    rows
}

// Every rule of so many rows agrees; the numbers below `count` give all of their rows.
fn rules_agree(rt: &impl Abort, heap: Global, count: usize, nodes: usize) -> Result<(), Fail> {
    (0..count).try_for_each(|number| {
        let rows = rows_of(number);
        match Rule::checked(&Bytes, &rows[..nodes.min(5)]) {
            Ok(rule) => rule_agrees(rt, heap, &rule),
            Err(_) => Ok(()),
        }
    })
}

#[test]
fn every_small_rule(rt: HostRuntime) -> Result<(), Fail> {
    rules_agree(&rt, rt.alloc(), 6, 1)?;
    rules_agree(&rt, rt.alloc(), 36, 2)?;
    rules_agree(&rt, rt.alloc(), 216, 3)?;
    rules_agree(&rt, rt.alloc(), 1296, 4)?;
    rules_agree(&rt, rt.alloc(), 7776, 5)
}

// The rule (a|ab)(b|): on ab the POSIX policy and its opposite read differently. Written out, since tests do not see another crate's.
#[test]
fn policies_differ(rt: HostRuntime) -> Result<(), Fail> {
    let rows = [
        Row::from(Kind::Sequence),
        Row::from(Kind::Choice),
        Row::leaf(97, 97),
        Row::from(Kind::Sequence),
        Row::leaf(97, 97),
        Row::leaf(98, 98),
        Row::from(Kind::Choice),
        Row::leaf(98, 98),
        Row::from(Kind::Empty),
    ];
    let rule = Rule::checked(&Bytes, &rows)?;
    rule_agrees(&rt, rt.alloc(), &rule)?;
    let all = readings(rt.alloc(), &rule, b"ab")?;
    assert_eq!(rt; all.len(), 2);
    let first = best_by(|a, b| compare_by(every_node, &rows, a, b), &all);
    let last = best_by(|a, b| compare_by(every_node, &rows, b, a), &all);
    assert!(rt; first != last);
    Ok(())
}

// How the name is matched with so many cells of bench and entries of report.
fn answer(rule: &Rule, name: &[u8], cells: usize, entries: usize) -> Result<(), Unmatched> {
    let mut bench = [0; 64];
    let mut report = [None; 4];
    let cells = &mut bench[..cells.min(64)];
    let entries = &mut report[..entries.min(4)];
    best_reading(&Bytes, &Posix, rule, name, cells, entries)
}

#[test]
fn what_does_not_fit(rt: HostRuntime) -> Result<(), Fail> {
    let rule = Rule::checked(&Bytes, &[Row::from(Kind::Star), Row::leaf(97, 97)])?;
    assert_eq!(rt; answer(&rule, b"a", 8, 2), Ok(()));
    assert_eq!(rt; answer(&rule, b"a", 7, 2), Err(Unmatched::Unfit));
    assert_eq!(rt; answer(&rule, b"a", 8, 1), Err(Unmatched::Unfit));
    assert_eq!(rt; answer(&rule, &[b'a'; 121], 64, 4), Err(Unmatched::Unfit));
    Ok(())
}

// The rule a(b*).
fn some_rows() -> [Row; 4] {
    [
        Row::from(Kind::Sequence),
        Row::leaf(97, 97),
        Row::from(Kind::Star),
        Row::leaf(98, 98),
    ]
}

#[test]
fn trees_that_begin_rows(rt: HostRuntime) {
    let rows = some_rows();
    assert_eq!(rt; tree_len(&rows), 4);
    assert_eq!(rt; tree_len(&rows[1..]), 1);
    assert_eq!(rt; tree_len(&rows[2..]), 2);
    assert_eq!(rt; tree_len(&rows[..3]), 3);
    assert_eq!(rt; tree_len(&[Row::inner(9), Row::leaf(97, 97)]), 1);
    assert_eq!(rt; tree_len(&[]), 0);
}

#[test]
fn bytes_of_a_leaf(rt: HostRuntime) {
    let row = Row::leaf(97, 98);
    assert!(rt; leaf_has(row, b"a"));
    assert!(rt; leaf_has(row, b"b"));
    assert!(rt; !leaf_has(row, b"c"));
    assert!(rt; !leaf_has(row, b""));
    assert!(rt; !leaf_has(row, b"aa"));
}

#[test]
fn words_of_rows(rt: HostRuntime) {
    let rows = some_rows();
    assert!(rt; member(&rows, b"a"));
    assert!(rt; member(&rows, b"abb"));
    assert!(rt; !member(&rows, b"ba"));
    assert!(rt; !member(&rows, b""));
    assert!(rt; member(&rows[2..], b""));
    assert!(rt; !member(&[], b""));
    let unknown = [Row::inner(9), Row::leaf(97, 97), Row::leaf(98, 98)];
    assert!(rt; member(&unknown, b"ab"));
    assert!(rt; !member(&unknown, b"a"));
}

#[test]
fn place_of_the_best(rt: HostRuntime) -> Result<(), Fail> {
    let heap = rt.alloc();
    let star = [Row::from(Kind::Star), Row::leaf(97, 97)];
    let leaf = [Row::leaf(97, 97)];
    let short = [Some((0, 1)), None].to_vec(heap)?;
    let long = [Some((0, 3)), None].to_vec(heap)?;
    let other = [Some((1, 4)), None].to_vec(heap)?;
    let all = [short, long, other, Vec::new(heap)];
    assert_eq!(rt; best(Keys::EveryNode, false, &star, &all), 1);
    assert_eq!(rt; best(Keys::EveryNode, true, &star, &all), 0);
    assert_eq!(rt; best(Keys::StarsOnly, false, &star, &all), 1);
    assert_eq!(rt; best(Keys::StarsOnly, false, &leaf, &all), 0);
    assert_eq!(rt; best(Keys::EveryNode, false, &star, &[]), 0);
    Ok(())
}
