ghost use Rattle.std.specs.Prelude.{◌≡◌, slice_set};
ghost use Rattle.text.specs.Written.{Inserted};

use rules::Row;

// Writes a row among those that a reader keeps, the first 64.
pub(crate) fn put(kept: &mut [Row; 64], at: usize, row: Row)
    ensures { kept.new ≡ slice_set kept.old at row }
{
    if at < 64 {
        kept[at] = row;
    }
}

// The rows from `at` up to `end` move up by one, and `row` takes their front.
pub(crate) fn insert(kept: &mut [Row; 64], at: usize, end: usize, row: Row)
    ensures { Inserted kept.old at end row kept.new }
{
    let last = end.min(63);
    if at < last {
        kept.copy_within(at..last, at + 1);
    }
    put(kept, at, row);
}
