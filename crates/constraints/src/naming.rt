ghost use Rattle.std.specs.Prelude.{◌≤◌, length};
ghost use Rattle.policies.specs.Named.{named_above};
ghost use Rattle.sheet.specs.Questions.{Lowest};
ghost use Rattle.sheet.specs.Sheets.{locked};
ghost use Rattle.constraints.specs.NameLines.{SaysAnswer};
ghost use Rattle.session.specs.Served.{PrintsBy};
ghost use Rattle.constraints.specs.Served.{folded_name};

use crate::answers::FileSheet;
use crate::printing::{print_reading, print_refusal};
use std::alloc::AllocError;

// Prints the reading of the name by the rule at the lowest place that reads it, or that the bench is too short.
// Sheet, bench and output are three borrows that one caller hands on: a struct of them would be no plainer.
fn serve_reading(
    sheet: &FileSheet,
    place: usize,
    name: &[u8],
    bench: &mut [u8],
    out: &mut Vec<u8>,
) -> Result<(), AllocError>
    requires short { length name.now ≤ 120 }
    requires lowest { Lowest (locked sheet.now) (folded_name name.now) place }
    ensures { PrintsBy result (λ _. SaysAnswer (named_above sheet.now.kept.policy) (locked sheet.now) (length bench.old) name.now) out.old.items out.new.items }
{
    // An entry for each row of a rule, of which there are 64 at most.
    let mut report = [None; 64];
    match sheet.spans(place, name, bench, &mut report) {
        Ok(()) => print_reading(place, &report, out),
        Err(denial) => print_refusal(denial, out),
    }
}

// Prints the place and the reading of the name, or why there is none.
pub(crate) fn serve_name(
    sheet: &FileSheet,
    name: &[u8],
    bench: &mut [u8],
    out: &mut Vec<u8>,
) -> Result<(), AllocError>
    ensures { PrintsBy result (λ _. SaysAnswer (named_above sheet.now.kept.policy) (locked sheet.now) (length bench.old) name.now) out.old.items out.new.items }
{
    match sheet.govern(name) {
        Ok(place) => serve_reading(sheet, place, name, bench, out),
        Err(denial) => print_refusal(denial, out),
    }
}
