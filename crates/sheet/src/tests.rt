use crate::sheet::{LockedSheet, OpenSheet};
use policies::{FirstLongest, Policy, Posix};
use rules::alphabet::Bytes;
use rules::{Denial, Kind, Row};
use std::process::Abort;
use std::test::Fail;

// (a|ab)(b|), written out, since a crate's tests do not see another's.
fn two_choices() -> [Row; 9] {
    [
        Row::from(Kind::Sequence),
        Row::from(Kind::Choice),
        Row::leaf(97, 97),
        Row::from(Kind::Sequence),
        Row::leaf(97, 97),
        Row::leaf(98, 98),
        Row::from(Kind::Choice),
        Row::leaf(98, 98),
        Row::from(Kind::Empty),
    ]
}

// Where the first choice of the rule at a place ends on `ab`, if it has a stretch.
fn first_end<P: Policy>(
    sheet: &LockedSheet<Bytes, P>,
    place: usize,
) -> Result<Option<usize>, Denial> {
    let mut bench = [0; 81];
    let mut report = [None; 9];
    sheet.spans(place, b"ab", &mut bench, &mut report)?;
    Ok(report[1].map(|stretch| stretch.1))
}

// A sheet that has been locked, unlocked and changed answers as a fresh one with the same rules.
fn history_leaves_no_trace<P: Policy + Copy>(
    rt: &(impl Abort + AllocGlobal),
    policy: P,
) -> Result<(), Fail> {
    let mut sheet = OpenSheet::open(rt.alloc(), Bytes, policy)?;
    assert_eq!(rt; sheet.add(&[Row::leaf(98, 98)])?, 0);
    let mut sheet = sheet.lock().unlock();
    sheet.drop(0)?;
    assert_eq!(rt; sheet.add(&two_choices())?, 0);
    let used = sheet.lock();
    let mut sheet = OpenSheet::open(rt.alloc(), Bytes, policy)?;
    assert_eq!(rt; sheet.add(&two_choices())?, 0);
    let fresh = sheet.lock();
    assert!(rt; first_end(&used, 0) == first_end(&fresh, 0));
    assert!(rt; first_end(&used, 1) == Err(Denial::NoSuchPlace));
    assert!(rt; used.govern(b"ab") == Ok(0));
    assert!(rt; used.govern(b"ba") == Err(Denial::NotRead));
    Ok(())
}

#[test]
fn histories(rt: HostRuntime) -> Result<(), Fail> {
    history_leaves_no_trace(&rt, Posix)?;
    history_leaves_no_trace(&rt, FirstLongest)
}

#[test]
fn policies_differ(rt: HostRuntime) -> Result<(), Fail> {
    let mut sheet = OpenSheet::open(rt.alloc(), Bytes, Posix)?;
    sheet.add(&two_choices())?;
    assert!(rt; first_end(&sheet.lock(), 0) == Ok(Some(2)));
    let mut sheet = OpenSheet::open(rt.alloc(), Bytes, FirstLongest)?;
    sheet.add(&two_choices())?;
    assert!(rt; first_end(&sheet.lock(), 0) == Ok(Some(1)));
    Ok(())
}
