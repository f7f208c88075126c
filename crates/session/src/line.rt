ghost use Rattle.std.specs.Prelude.{MatchOption};
ghost use Rattle.session.specs.Kinds.{Is, Names, NamesNone};

use policies::NamedPolicy;

// Whether the policy has been named. Nothing is kept in it.
#[derive(Clone, Copy)]
pub enum State {
    Awaiting,
    Serving,
}

// A line by how it begins; a pattern and a name borrow their part of it.
#[derive(Clone, Copy)]
pub enum Line<'a> {
    Policy(NamedPolicy),
    Rule(&'a [u8]),
    Name(&'a [u8]),
    Other,
}

fn policy_named(line: &[u8]) -> Option<NamedPolicy>
    ensures { MatchOption result (NamesNone line.now) (λ p. Names p line.now) }
{
    match line {
        b"posix" => Some(NamedPolicy::Posix),
        b"first" => Some(NamedPolicy::FirstLongest),
        _ => None,
    }
}

// Of which kind the line is.
pub fn kind_of(line: &[u8]) -> Line
    ensures { Is result line.now }
{
    if let Some(policy) = policy_named(line) {
        return Line::Policy(policy);
    }
    match line {
        [b'r', b' ', text @ ..] => Line::Rule(text),
        [b'n', b' ', name @ ..] => Line::Name(name),
        _ => Line::Other,
    }
}
