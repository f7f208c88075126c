ghost use Rattle.std.specs.Prelude.{◌≡◌, ◌-◌, ◌++◌, cond, ◌==◌, Some, None, replicate};
ghost use Rattle.rules.specs.RuleRows.{Ruled, rule_rows};
ghost use Rattle.rules.specs.Trees.{Tree, Of, leaves as leaf-count};
ghost use Rattle.positions.specs.Positions.{leaf_of};
ghost use Rattle.positions.specs.SetsOf.{SetsOf};

use super::Positions;
use super::visit::visit;
use rules::{Kind, Row, Rule};

// The lo and hi of a row that is a leaf's.
fn leaf_of_row(row: &Row) -> Option<(u32, u32)>
    ensures { result ≡ cond (row.now.kind == 1) (Some (row.now.lo, row.now.hi)) None }
{
    match Kind::try_from(row.kind) {
        Ok(Kind::Leaf) => Some((row.lo, row.hi)),
        _ => None,
    }
}

// The lo and hi of each leaf, and zeros behind them.
fn leaves_of(rows: &[Row]) -> [(u32, u32); 32]
    requires { Ruled rows.now }
    ensures { (t : Tree) → Of rows.now t → result ≡ leaf_of t ++ replicate (32 - leaf-count t) (0, 0) }
{
    let mut leaves = [(0, 0); 32];
    let mut count = 0;
    for row in rows {
        if let Some(leaf) = leaf_of_row(row) {
            leaves[count] = leaf;
            count += 1;
        }
    }
    leaves
}

impl Positions {
    // The position sets of a rule.
    pub fn of(rule: &Rule) -> Positions
        ensures { (t : Tree) → Of (rule_rows rule.now) t → SetsOf t result }
    {
        let rows = rule.rows();
        let leaves = leaves_of(rows);
        let mut follow = [0; 32];
        let whole = visit(rows, 0, 0, &mut follow);
        Positions {
            nullable: whole.nullable,
            first: whole.first,
            last: whole.last,
            count: whole.next_leaf,
            follow,
            leaves,
        }
    }
}
