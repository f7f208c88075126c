ghost use Rattle.rules.specs.Theorems.{CheckedExactly, FewLeaves, LanguageDecided, ReadingsExactly};

// Whether a name is in a rule's language can be decided.
pub fn language_is_decided()
    ensures { LanguageDecided }
{}

// A name has a reading exactly where it is in the rule's language.
pub fn readings_are_of_the_language()
    ensures { ReadingsExactly }
{}

// A rule has at most 32 leaves.
pub fn rules_have_few_leaves()
    ensures { FewLeaves }
{}

// Rows pass the checks exactly when they are those of a tree whose leaves are all admitted, and of no other tree.
pub fn checks_are_exact()
    ensures { CheckedExactly }
{}
