ghost use Rattle.constraints.specs.Theorems.{OneSession};

// The lines decide what is printed, from any state, policy and rules. `session` has its own, of what netread prints.
pub fn session_is_decided()
    ensures { OneSession }
{}
