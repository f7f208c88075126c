ghost use Rattle.std.specs.Prelude.{◌≡◌};
ghost use Rattle.rules.specs.Denials.{numbered};
ghost use Rattle.sheet.specs.Sheets.{holding};
ghost use Rattle.constraints.specs.Served.{TextAdded};

use policies::NamedPolicy;
use rules::alphabet::{Bytes, Folding};
use rules::{Denial, Kind, Row};
use sheet::OpenSheet;
use text::read;

// Reads the text and adds its rule; a number met on the way reaches the caller unchanged.
pub(crate) fn add_text(
    sheet: &mut OpenSheet<Folding<Bytes>, NamedPolicy>,
    text: &[u8],
) -> Result<usize, Denial>
    ensures answer { TextAdded (holding sheet.old) text.now (holding sheet.new) (numbered result) }
    ensures policy { sheet.new.kept.policy ≡ sheet.old.kept.policy }
{
    // A rule has 64 rows at most, so an array serves, and no memory is asked for.
    let mut rows = [Row::from(Kind::Empty); 64];
    let count = read(text, &mut rows)?;
    sheet.add(&rows[..count])
}
