use crate::reader::read;
use rules::{Denial, Kind, Row};
use std::process::Abort;
use std::test::Fail;

const BLANK: Row = Row {
    kind: 9,
    lo: 9,
    hi: 9,
};

fn all_blank(rows: &[Row]) -> bool {
    rows.iter().all(|row| *row == BLANK)
}

// The text is read into these rows, and the rows behind them stay.
fn reads(rt: &impl Abort, text: &[u8], want: &[Row]) -> Result<(), Fail> {
    let mut rows = [BLANK; 70];
    let count = read(text, &mut rows)?;
    assert!(rt; count <= 70);
    assert_eq!(rt; &rows[..count], want);
    assert!(rt; all_blank(&rows[count..]));
    Ok(())
}

// So many rows are written, and the buffer has just that many.
fn counts(rt: &impl Abort, text: &[u8], want: usize) -> Result<(), Fail> {
    let mut rows = [BLANK; 64];
    assert!(rt; want <= 64);
    assert_eq!(rt; read(text, &mut rows[..want])?, want);
    Ok(())
}

// The text is denied for this, with room for so many rows, and the rows lent stay.
fn denies(rt: &impl Abort, text: &[u8], room: usize, want: Denial) {
    let mut rows = [BLANK; 70];
    assert!(rt; room <= 70);
    assert_eq!(rt; read(text, &mut rows[..room]), Err(want));
    assert!(rt; all_blank(&rows[..room]));
}

#[test]
fn signs(rt: HostRuntime) -> Result<(), Fail> {
    reads(&rt, b"", &[Row::from(Kind::Empty)])?;
    reads(&rt, b"a", &[Row::leaf(97, 97)])?;
    reads(&rt, b"-", &[Row::leaf(45, 45)])?;
    reads(&rt, b"\x00", &[Row::leaf(0, 0)])?;
    reads(&rt, b"\xff", &[Row::leaf(255, 255)])?;
    reads(&rt, b".", &[Row::leaf(0, 255)])?;
    reads(&rt, b"\\*", &[Row::leaf(42, 42)])?;
    reads(&rt, b"\\\\", &[Row::leaf(92, 92)])?;
    reads(&rt, b"[0-9]", &[Row::leaf(48, 57)])?;
    reads(&rt, b"[a-a]", &[Row::leaf(97, 97)])?;
    reads(&rt, b"[--]]", &[Row::leaf(45, 93)])?;
    reads(&rt, b"()", &[Row::from(Kind::Empty)])?;
    reads(
        &rt,
        b"|",
        &[
            Row::from(Kind::Choice),
            Row::from(Kind::Empty),
            Row::from(Kind::Empty),
        ],
    )
}

#[test]
fn stars(rt: HostRuntime) -> Result<(), Fail> {
    reads(
        &rt,
        b"a**",
        &[
            Row::from(Kind::Star),
            Row::from(Kind::Star),
            Row::leaf(97, 97),
        ],
    )?;
    reads(
        &rt,
        b"(ab)*",
        &[
            Row::from(Kind::Star),
            Row::from(Kind::Sequence),
            Row::leaf(97, 97),
            Row::leaf(98, 98),
        ],
    )
}

#[test]
fn choices(rt: HostRuntime) -> Result<(), Fail> {
    reads(
        &rt,
        b"a|b*c",
        &[
            Row::from(Kind::Choice),
            Row::leaf(97, 97),
            Row::from(Kind::Sequence),
            Row::from(Kind::Star),
            Row::leaf(98, 98),
            Row::leaf(99, 99),
        ],
    )?;
    reads(
        &rt,
        b"a|b|c",
        &[
            Row::from(Kind::Choice),
            Row::leaf(97, 97),
            Row::from(Kind::Choice),
            Row::leaf(98, 98),
            Row::leaf(99, 99),
        ],
    )
}

// Written out, since tests do not see another crate's.
#[test]
fn two_choices(rt: HostRuntime) -> Result<(), Fail> {
    reads(
        &rt,
        b"(a|ab)(b|)",
        &[
            Row::from(Kind::Sequence),
            Row::from(Kind::Choice),
            Row::leaf(97, 97),
            Row::from(Kind::Sequence),
            Row::leaf(97, 97),
            Row::leaf(98, 98),
            Row::from(Kind::Choice),
            Row::leaf(98, 98),
            Row::from(Kind::Empty),
        ],
    )
}

#[test]
fn not_derived(rt: HostRuntime) {
    denies(&rt, b"[z-a]", 70, Denial::NotDerived);
    denies(&rt, b"*a", 70, Denial::NotDerived);
    denies(&rt, b"a|*", 70, Denial::NotDerived);
    denies(&rt, b"(a", 70, Denial::NotDerived);
    denies(&rt, b"a)", 70, Denial::NotDerived);
    denies(&rt, b")", 70, Denial::NotDerived);
    denies(&rt, b"]", 70, Denial::NotDerived);
    denies(&rt, b"[a-", 70, Denial::NotDerived);
    denies(&rt, b"[a-b", 70, Denial::NotDerived);
    denies(&rt, b"[ab]", 70, Denial::NotDerived);
    denies(&rt, b"\\", 70, Denial::NotDerived);
}

// 99 brackets around the letters, one of them open, and as many closed.
fn bracketed(letters: &[u8; 2]) -> [u8; 200] {
    let mut text = [b'('; 200];
    text[99] = letters[0];
    text[100] = letters[1];
    text[101..].fill(b')');
    text
}

#[test]
fn limits(rt: HostRuntime) -> Result<(), Fail> {
    counts(&rt, &[b'a'; 32], 63)?;
    denies(&rt, &[b'a'; 32], 62, Denial::AnswerTooLong);
    denies(&rt, &[b'a'; 33], 70, Denial::TextRows);
    denies(&rt, &[b'a'; 33], 0, Denial::TextRows);
    counts(&rt, b"a*aaaaaaaaaaaaaaaaaaaaaaaaaaaaaaa", 64)?;
    denies(
        &rt,
        b"a**aaaaaaaaaaaaaaaaaaaaaaaaaaaaaaa",
        70,
        Denial::TextRows,
    );
    counts(&rt, &bracketed(b"ab"), 3)?;
    denies(&rt, &bracketed(b"a("), 70, Denial::NotDerived);
    denies(&rt, &[b'a'; 200], 70, Denial::TextRows);
    denies(&rt, &[b'a'; 201], 70, Denial::TextTooLong);
    denies(&rt, &[b')'; 201], 70, Denial::TextTooLong);
    denies(&rt, &[b'('; 200], 70, Denial::NotDerived);
    denies(&rt, b"", 0, Denial::AnswerTooLong);
    Ok(())
}
