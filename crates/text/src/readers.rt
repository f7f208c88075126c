ghost use Rattle.std.specs.Prelude.{◌+◌, ◌*◌, ◌≤◌, length};

use crate::kept::{insert, put};
use crate::sign::{Sign, next_sign, stands_at, stops_at};
use rules::{Denial, Kind, Row};

// How far a text is read, and what it wrote: the bytes before `at`, and `count` rows, of which the first 64 are kept.
// An array holds them, since this crate has fixed memory, and the count goes on past its end.
#[derive(Drop)]
pub(crate) struct Reader<'a> {
    text: &'a [u8],
    pub(crate) at: usize,
    pub(crate) count: usize,
    rows: [Row; 64],
    ghost short: { length text.now ≤ 200 },
    ghost within: { at ≤ length text.now },

    // Each byte brings two rows at most, and the end of a text one more.
    ghost few: { count ≤ 2 * at + 1 },
}

impl<'a> Reader<'a> {
    ghost use Rattle.std.specs.Prelude.{◌≡◌, ℕ, ◌+◌, ◌≤◌, true, false, List, ◌∷◌, ◌≢◌, length, take, drop, slice_set};
    ghost use Rattle.rules.specs.Trees.{Tree, row, size};
    ghost use Rattle.text.specs.Readers.{ReadText, ReadBranch, ReadPiece, ReadAtom};
    ghost use Rattle.text.specs.Written.{Starred};
    ghost use Rattle.text.specs.Steps.{HasRoom, Grows, Reads, Takes, Signs};

    pub(crate) fn new(text: &'a [u8]) -> Reader<'a>
        requires { length text.now ≤ 200 }
        ensures text { result.text.now ≡ text.now }
        ensures start { (result.at ≡ 0) × (result.count ≡ 0) }
    {
        Reader {
            text,
            at: 0,
            count: 0,
            rows: [Row::from(Kind::Empty); 64],
        }
    }

    // The rows counted, where all of them are kept.
    pub(crate) fn written(&self) -> &[Row]
        requires { self.now.count ≤ 64 }
        ensures rows { result.now ≡ take self.now.count self.now.rows }
        ensures long { length result.now ≡ self.now.count }
    {
        &self.rows[..self.count]
    }

    // One row more, behind the others; past the 64th it is only counted.
    // `HasRoom` is asked here and below, and is no invariant, since a text that is read to its end leaves no room.
    fn push(&mut self, row: Row)
        requires { HasRoom self.old }
        ensures text { self.new.text.now ≡ self.old.text.now }
        ensures at { self.new.at ≡ self.old.at }
        ensures count { self.new.count ≡ self.old.count + 1 }
        ensures rows { self.new.rows ≡ slice_set self.old.rows self.old.count row }
    {
        put(&mut self.rows, self.count, row);
        self.count += 1;
    }

    // One row more, before those from `at` on.
    fn insert_at(&mut self, at: usize, row: Row)
        requires { HasRoom self.old }
        ensures { Grows self.old self.new at row }
    {
        insert(&mut self.rows, at, self.count, row);
        self.count += 1;
    }

    // A branch, or a branch, `|` and a text.
    #[cycle(readers)]
    pub(crate) fn text(&mut self) -> Result<(), Denial>
        requires { HasRoom self.old }
        ensures { Reads ReadText self.old self.new result }
    {
        let start = self.count;
        self.branch()?;
        if self.take(b'|') {
            self.insert_at(start, Row::from(Kind::Choice));
            self.text()
        } else {
            Ok(())
        }
    }

    // Nothing, a piece, or a piece and a branch that is not nothing.
    #[cycle(readers)]
    fn branch(&mut self) -> Result<(), Denial>
        requires { HasRoom self.old }
        ensures { Reads ReadBranch self.old self.new result }
    {
        if stops_at(self.text, self.at) {
            self.push(Row::from(Kind::Empty));
            return Ok(());
        }
        let start = self.count;
        self.piece()?;
        if stops_at(self.text, self.at) {
            return Ok(());
        }
        self.insert_at(start, Row::from(Kind::Sequence));
        self.branch()
    }

    // An atom and its stars.
    #[cycle(readers)]
    fn piece(&mut self) -> Result<(), Denial>
        ensures { Reads ReadPiece self.old self.new result }
    {
        let start = self.count;
        self.atom()?;
        self.stars(start);
        Ok(())
    }

    // The stars behind a piece whose rows begin at `start`.
    fn stars(&mut self, start: usize)
        ensures text { self.new.text.now ≡ self.old.text.now }
        ensures read { (t : Tree) → self.old.count ≡ start + size t → Starred self.old.text.now start self.old.at self.new.at self.new.count self.old.rows self.new.rows t }
    {
        if self.take(b'*') {
            self.insert_at(start, Row::from(Kind::Star));
            self.stars(start);
        }
    }

    // `(` text `)`, or one leaf.
    #[cycle(readers)]
    fn atom(&mut self) -> Result<(), Denial>
        ensures { Reads ReadAtom self.old self.new result }
    {
        match self.sign()? {
            Sign::Open => {
                self.text()?;
                if !self.take(b')') {
                    return Err(Denial::NotDerived);
                }
            }
            Sign::Close | Sign::Bar | Sign::Star => return Err(Denial::NotDerived),
            Sign::Dot => self.leaf(0, 255),
            Sign::Plain(byte) => self.leaf(byte, byte),
            Sign::Escape(part) => self.leaf(part[1], part[1]),
            Sign::Class(part) => self.leaf(part[1], part[3]),
        }
        Ok(())
    }

    // One leaf, whose sign is read.
    fn leaf(&mut self, low: u8, high: u8)
        requires { HasRoom self.old }
        ensures text { self.new.text.now ≡ self.old.text.now }
        ensures at { self.new.at ≡ self.old.at }
        ensures count { self.new.count ≡ self.old.count + 1 }
        ensures rows { self.new.rows ≡ slice_set self.old.rows self.old.count (row 1 low high) }
    {
        self.push(Row::leaf(u32::from(low), u32::from(high)));
    }

    // The next sign.
    fn sign(&mut self) -> Result<Sign<'a>, Denial>
        ensures { Signs self.old self.new result }
    {
        let (sign, rest) = next_sign(&self.text[self.at..])?;
        self.at = self.text.len() - rest.len();
        Ok(sign)
    }

    // Whether this byte stands next; then it is read.
    fn take(&mut self, byte: u8) -> bool
        ensures yes { result ≡ true → Takes self.old self.new byte }
        ensures no { result ≡ false → (self.new ≡ self.old) × ((z : List ℕ) → drop self.old.at self.old.text.now ≢ byte ∷ z) }
    {
        let stands = stands_at(self.text, self.at, byte);
        if stands {
            self.at += 1;
        }
        stands
    }
}
