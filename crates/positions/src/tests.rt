use crate::Positions;
use crate::leaf_set::member;
use rules::alphabet::Bytes;
use rules::{Kind, Row, Rule};
use std::test::Fail;

// (a|ab)(b|). Tests of other crates write it too, since the test items of one crate are not seen from another.
fn two_choices() -> [Row; 9] {
    [
        Row::from(Kind::Sequence),
        Row::from(Kind::Choice),
        Row::leaf(97, 97),
        Row::from(Kind::Sequence),
        Row::leaf(97, 97),
        Row::leaf(98, 98),
        Row::from(Kind::Choice),
        Row::leaf(98, 98),
        Row::from(Kind::Empty),
    ]
}

fn sets_of(rows: &[Row]) -> Result<Positions, Fail> {
    let rule = Rule::checked(&Bytes, rows)?;
    Ok(Positions::of(&rule))
}

#[test]
fn worked_example(rt: HostRuntime) -> Result<(), Fail> {
    let sets = sets_of(&two_choices())?;
    assert!(rt; !sets.nullable);
    assert_eq!(rt; sets.first, 3);
    assert_eq!(rt; sets.last, 13);
    assert_eq!(rt; sets.count, 4);
    assert_eq!(rt; &sets.follow[..5], [8, 4, 8, 0, 0].as_slice());
    let (lo, _) = sets.leaves[2];
    assert_eq!(rt; lo, 98);
    assert!(rt; member(sets.last, 2));
    assert!(rt; !member(sets.last, 1));
    assert!(rt; !member(sets.last, 40));
    Ok(())
}

#[test]
fn names_of_the_worked_example(rt: HostRuntime) -> Result<(), Fail> {
    let sets = sets_of(&two_choices())?;
    assert!(rt; !sets.accepts(&Bytes, b""));
    assert!(rt; sets.accepts(&Bytes, b"a"));
    assert!(rt; sets.accepts(&Bytes, b"ab"));
    assert!(rt; sets.accepts(&Bytes, b"abb"));
    assert!(rt; !sets.accepts(&Bytes, b"abbb"));
    assert!(rt; !sets.accepts(&Bytes, b"b"));
    assert!(rt; !sets.accepts(&Bytes, b"aa"));
    Ok(())
}

#[test]
fn star(rt: HostRuntime) -> Result<(), Fail> {
    let sets = sets_of(&[Row::from(Kind::Star), Row::leaf(97, 97)])?;
    assert!(rt; sets.nullable);
    assert_eq!(rt; sets.first, 1);
    assert_eq!(rt; sets.last, 1);
    assert_eq!(rt; sets.count, 1);
    assert_eq!(rt; &sets.follow[..1], [1].as_slice());
    assert!(rt; sets.accepts(&Bytes, b""));
    assert!(rt; sets.accepts(&Bytes, b"aaaa"));
    assert!(rt; !sets.accepts(&Bytes, b"aab"));
    Ok(())
}

// A leaf at or past the count is none of the rule's, whatever the sets say.
#[test]
fn leaf_past_the_count(rt: HostRuntime) -> Result<(), Fail> {
    let mut leaves = [(0, 0); 32];
    leaves[0] = (97, 97);
    let sets = Positions {
        nullable: false,
        first: 1,
        last: 1,
        count: 0,
        follow: [1; 32],
        leaves,
    };
    assert!(rt; !sets.accepts(&Bytes, b"a"));
    assert!(rt; !sets.accepts(&Bytes, b"aa"));
    Ok(())
}
