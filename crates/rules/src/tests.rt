use crate::alphabet::{Alphabet, Bytes, Folding, Segment, Segments};
use crate::denial::Denial;
use crate::kind::Kind;
use crate::row::Row;
use crate::rule::Rule;
use std::test::Fail;

// The check that the rows meet, if there is one.
fn denied(rows: &[Row]) -> Option<Denial> {
    Rule::checked(&Bytes, rows).err()
}

#[test]
fn rows_are_checked_in_order(rt: HostRuntime) {
    let leaf = Row::leaf(97, 97);
    let choice = Row::from(Kind::Choice);
    let star = Row::from(Kind::Star);
    // No kind has this number, so the row is made of numbers.
    let bad_kind = Row::new(5, 1, 1);
    assert_eq!(rt; denied(&[]), Some(Denial::RowCount));
    assert_eq!(rt; denied(&[star; 65]), Some(Denial::RowCount));
    assert_eq!(rt; denied(&[leaf]), None);
    assert_eq!(rt; denied(&[leaf, bad_kind]), Some(Denial::RowTooMany));
    assert_eq!(rt; denied(&[bad_kind]), Some(Denial::UnknownKind));
    assert_eq!(rt; denied(&[Row::leaf(98, 97)]), Some(Denial::NotAdmitted));
    let numbered = Row::new(Kind::Choice as u8, 0, 1);
    assert_eq!(rt; denied(&[numbered, bad_kind]), Some(Denial::NotAdmitted));
    assert_eq!(rt; denied(&[choice, leaf]), Some(Denial::RowsMissing));
    assert_eq!(rt; denied(&[star; 64]), Some(Denial::RowsMissing));
    assert_eq!(rt; denied(&[choice, leaf, leaf]), None);
}

#[test]
fn a_rule_keeps_its_rows(rt: HostRuntime) -> Result<(), Fail> {
    let rows = [Row::from(Kind::Star), Row::leaf(0, 255)];
    let rule = Rule::checked(&Bytes, &rows)?;
    assert_eq!(rt; rule.rows(), rows.as_slice());
    Ok(())
}

#[test]
fn alphabets(rt: HostRuntime) {
    assert!(rt; Bytes.admits(0, 255) && !Bytes.admits(0, 256) && !Bytes.admits(2, 1));
    assert!(rt; Bytes.holds(97, 98, &98) && !Bytes.holds(97, 98, &99));
    let folding = Folding { inner: Bytes };
    assert!(rt; folding.holds(97, 98, &b'B') && !folding.holds(65, 66, &b'B'));
    assert!(rt; folding.holds(91, 91, &b'[') && folding.holds(64, 64, &b'@'));
    let segment = Segment { name: 7, cell: 2 };
    assert!(rt; Segments.admits(9, 255) && !Segments.admits(0, 256));
    assert!(rt; Segments.holds(0, 0, &segment) && Segments.holds(7, 2, &segment));
    assert!(rt; !Segments.holds(8, 0, &segment) && !Segments.holds(0, 3, &segment));
}

#[test]
fn kinds(rt: HostRuntime) {
    assert!(rt; Row::from(Kind::Star) == Row::new(4, 0, 0) && Row::leaf(1, 2) == Row::new(1, 1, 2));
    assert_eq!(rt; Kind::try_from(0).ok(), Some(Kind::Empty));
    assert_eq!(rt; Kind::try_from(4).ok(), Some(Kind::Star));
    assert_eq!(rt; Kind::try_from(5).err(), Some(Denial::UnknownKind));
}

// The numbers that a user reads, one by one.
#[test]
fn denials_have_their_numbers(rt: HostRuntime) {
    let numbers = [
        (Denial::SheetFull, 1),
        (Denial::RowCount, 2),
        (Denial::UnknownKind, 3),
        (Denial::NotAdmitted, 4),
        (Denial::RowTooMany, 5),
        (Denial::RowsMissing, 6),
        (Denial::NoSuchPlace, 7),
        (Denial::NameTooLong, 8),
        (Denial::BenchTooShort, 9),
        (Denial::AnswerTooLong, 10),
        (Denial::NotRead, 11),
        (Denial::TextTooLong, 12),
        (Denial::NotDerived, 13),
        (Denial::TextRows, 14),
    ];
    for (denial, number) in numbers {
        assert_eq!(rt; denial.number(), number);
    }
}
