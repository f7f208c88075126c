ghost use Rattle.std.specs.Prelude.{◌≡◌};
ghost use Rattle.rules.specs.Denials.{number};

// Why a call is denied. Each case has a number, which is what callers and users see.
#[derive(Clone, Copy, PartialEq, Eq, Debug)]
pub enum Denial {
    // Sixteen rules are held.
    SheetFull = 1,
    // A rule has no row, or over 64.
    RowCount = 2,
    // A row's kind is over 4.
    UnknownKind = 3,
    // A leaf is not admitted by the alphabet, or lo or hi is not 0 elsewhere.
    NotAdmitted = 4,
    // A row comes when the open count is 0.
    RowTooMany = 5,
    // The open count is not 0 after the last row.
    RowsMissing = 6,
    // The place is not held.
    NoSuchPlace = 7,
    // The name has over 120 symbols.
    NameTooLong = 8,
    // The bench is too short.
    BenchTooShort = 9,
    // There are fewer rows or masks than the answer needs.
    AnswerTooLong = 10,
    // The name is outside the language.
    NotRead = 11,
    // The text has over 200 bytes.
    TextTooLong = 12,
    // The grammar does not derive the text.
    NotDerived = 13,
    // The text needs over 64 rows.
    TextRows = 14,
}

impl Denial {
    pub fn number(self) -> u8
        ensures { result ≡ number self }
    {
        self as u8
    }
}
