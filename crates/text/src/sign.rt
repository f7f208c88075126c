ghost use Rattle.std.specs.Prelude.{◌≡◌, ℕ, ◌+◌, ◌<◌, true, false, List, ◌∷◌, length, drop, MatchResult, ◌≢◌};
ghost use Rattle.rules.specs.Denials.{number};
ghost use Rattle.text.specs.Signs.{Signed, Unsigned, Stops};

use rules::Denial;

// One sign of pattern text; an escape and a class borrow their part of it.
#[derive(Clone, Copy)]
pub enum Sign<'a> {
    Open,
    Close,
    Bar,
    Star,
    Dot,
    Plain(u8),
    Escape(&'a [u8]),
    Class(&'a [u8]),
}

// The first sign of the text, and what follows it.
pub fn next_sign(text: &[u8]) -> Result<(Sign, &[u8]), Denial>
    ensures { MatchResult result (λ p. Signed p.0 text.now p.1.now) (λ d. (number d ≡ 13) × Unsigned text.now) }
{
    let [first, rest @ ..] = text else {
        return Err(Denial::NotDerived);
    };
    match *first as char {
        '(' => Ok((Sign::Open, rest)),
        ')' => Ok((Sign::Close, rest)),
        '|' => Ok((Sign::Bar, rest)),
        '*' => Ok((Sign::Star, rest)),
        '.' => Ok((Sign::Dot, rest)),
        '[' => match text {
            [b'[', low, b'-', high, b']', after @ ..] if low <= high => {
                Ok((Sign::Class(&text[..5]), after))
            }
            _ => Err(Denial::NotDerived),
        },
        ']' => Err(Denial::NotDerived),
        '\\' => match rest {
            [] => Err(Denial::NotDerived),
            [_, after @ ..] => Ok((Sign::Escape(&text[..2]), after)),
        },
        _ => Ok((Sign::Plain(*first), rest)),
    }
}

// Whether this byte stands at this place of the text.
pub(crate) fn stands_at(text: &[u8], at: usize, byte: u8) -> bool
    ensures yes { result ≡ true → (at < length text.now) × (drop at text.now ≡ byte ∷ drop (at + 1) text.now) }
    ensures no { result ≡ false → (z : List ℕ) → drop at text.now ≢ byte ∷ z }
{
    text.get(at) == Some(&byte)
}

// Whether a branch ends at this place of the text.
pub(crate) fn stops_at(text: &[u8], at: usize) -> bool
    ensures yes { result ≡ true → Stops (drop at text.now) }
    ensures no { result ≡ false → Stops (drop at text.now) → ⊥ }
{
    match text.get(at) {
        None => true,
        Some(byte) => *byte == b')' || *byte == b'|',
    }
}
