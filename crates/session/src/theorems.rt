ghost use Rattle.session.specs.Theorems.{OneSession};

// The lines decide what is printed.
pub fn session_is_decided()
    ensures { OneSession }
{}
