ghost use Rattle.std.specs.Prelude.{◌≡◌, length};

use crate::frame::Frame;
use rules::Alphabet;

// A name that is read by a rule, under a policy.
#[derive(Drop)]
pub(crate) struct Search<'a, A: Alphabet, P> {
    pub(crate) frame: Frame<'a>,
    pub(crate) alphabet: &'a A,
    pub(crate) policy: &'a P,
    pub(crate) name: &'a [A::Symbol],
    ghost long: { length name.now ≡ frame.symbols },
}
