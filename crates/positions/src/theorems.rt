ghost use Rattle.positions.specs.Theorems.{RunsExactly, SetsExactly, StepsExactly};

// First, last and follow sets are those that the words of leaf numbers say.
pub fn sets_mean_the_words()
    ensures { SetsExactly }
{}

// A name has a run of the position sets exactly where it is in the rule's language.
pub fn runs_are_the_language()
    ensures { RunsExactly }
{}

// The steps on masks accept a name exactly where it is in the rule's language.
pub fn steps_are_the_language()
    ensures { StepsExactly }
{}
