ghost use Rattle.text.specs.Theorems.{OneTree, OneOutcome};

// No text is derived to two trees.
pub fn grammar_is_unambiguous()
    ensures { OneTree }
{}

// The text and the rows lent decide what `read` answers and what it leaves in the rows.
pub fn read_has_one_outcome()
    ensures { OneOutcome }
{}
