ghost use Rattle.std.specs.Prelude.{◌≡◌, ◌+◌, ◌≤◌, length, Some, None, MatchResult};
ghost use Rattle.rules.specs.Checks.{parts, open_after, row_fits, row_met, met, checks};
ghost use Rattle.rules.specs.Denials.{number};
ghost use Rattle.rules.specs.Kinds.{kind_number};
ghost use Rattle.rules.specs.RuleRows.{rule_rows, Ruled};

use super::Rule;
use crate::alphabet::Alphabet;
use crate::denial::Denial;
use crate::kind::Kind;
use crate::row::Row;

impl Kind {
    // How many parts a node of the kind has.
    fn parts(self) -> usize
        ensures { result ≡ parts (kind_number self) }
    {
        match self {
            Kind::Empty | Kind::Leaf => 0,
            Kind::Choice | Kind::Sequence => 2,
            Kind::Star => 1,
        }
    }
}

// Whether a leaf is admitted, or lo and hi are 0 elsewhere.
fn fits<A: Alphabet>(alphabet: &A, kind: Kind, row: Row) -> bool
    requires { kind_number kind ≡ row.kind }
    ensures { result ≡ row_fits (A.Alphabet.admitted alphabet.now) row }
{
    match kind {
        Kind::Leaf => alphabet.admits(row.lo, row.hi),
        _ => row.lo == 0 && row.hi == 0,
    }
}

// Checks a row that comes at this open count, and gives the open count after it.
fn check_row<A: Alphabet>(alphabet: &A, count: usize, row: Row) -> Result<usize, Denial>
    requires { count ≤ 65 }
    ensures { MatchResult result (λ n. (row_met (A.Alphabet.admitted alphabet.now) count row ≡ None) × (n ≡ open_after count row.kind)) (λ d. row_met (A.Alphabet.admitted alphabet.now) count row ≡ Some (number d)) }
{
    if count == 0 {
        return Err(Denial::RowTooMany);
    }
    let kind = Kind::try_from(row.kind)?;
    if !fits(alphabet, kind, row) {
        return Err(Denial::NotAdmitted);
    }
    Ok(count - 1 + kind.parts())
}

// Checks each row in turn, and that none is missing after the last.
fn check_rows<A: Alphabet>(alphabet: &A, rows: &[Row]) -> Result<(), Denial>
    requires { length rows.now ≤ 64 }
    ensures { MatchResult result (λ _. met (A.Alphabet.admitted alphabet.now) 1 rows.now ≡ None) (λ d. met (A.Alphabet.admitted alphabet.now) 1 rows.now ≡ Some (number d)) }
{
    let mut count: usize = 1;
    for row in rows {
        count = check_row(alphabet, count, *row)?;
    }
    if count != 0 {
        return Err(Denial::RowsMissing);
    }
    Ok(())
}

impl Rule {
    // The rule that the rows are, or the first check that they meet.
    pub fn checked<A: Alphabet>(alphabet: &A, rows: &[Row]) -> Result<Rule, Denial>
        ensures { MatchResult result (λ rule. (checks (A.Alphabet.admitted alphabet.now) rows.now ≡ None) × (rule_rows rule ≡ rows.now)) (λ d. checks (A.Alphabet.admitted alphabet.now) rows.now ≡ Some (number d)) }
    {
        let len = rows.len();
        if len == 0 || len > 64 {
            return Err(Denial::RowCount);
        }
        check_rows(alphabet, rows)?;
        let mut all = [Row::from(Kind::Empty); 64];
        all[..len].copy_from_slice(rows);
        Ok(Rule { rows: all, len })
    }

    // The rule's rows, one for each node, in node order.
    pub fn rows(&self) -> &[Row]
        ensures value { result.now ≡ rule_rows self.now }
        ensures ruled { Ruled (rule_rows self.now) }
    {
        &self.rows[..self.len]
    }
}
