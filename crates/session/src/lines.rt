ghost use Rattle.std.specs.Prelude.{◌≡◌, ℕ, ◌<◌, ◌∷◌, length, take, position, MatchOption, ◌==◌};
ghost use Rattle.std.specs.Iterator.{YieldsFirstRef, item_count};
ghost use Rattle.session.specs.Lines.{lines};

// As many bytes of input are served; the rest is passed over.
pub const LIMIT: usize = 65_536;

// The lines of an input in turn, each without the byte that ends it.
#[derive(Drop)]
pub struct Lines<'a> {
    rest: &'a [u8],
}

impl<'a> Iterator for Lines<'a> {
    type Item = &'a [u8];

    ghost next_gives = { YieldsFirstRef (λ s. lines s.rest.now) };

    ghost remaining = { item_count (λ s. lines s.rest.now) };

    fn next(&mut self) -> Option<&'a [u8]> {
        let (line, rest) = next_line(self.rest)?;
        self.rest = rest;
        Some(line)
    }
}

// The lines of what is served of an input.
pub fn served_lines(input: &[u8]) -> Lines
    ensures { result.rest.now ≡ take 65536 input.now }
{
    Lines {
        rest: &input[..input.len().min(LIMIT)],
    }
}

// The place of the first byte 10.
fn line_end(input: &[u8]) -> Option<usize>
    ensures { result ≡ position (λ byte. byte == 10) input.now }
{
    input.iter().position(|byte| *byte == b'\n')
}

// The first line, without the byte that ends it, and what follows.
pub fn next_line(input: &[u8]) -> Option<(&[u8], &[u8])>
    ensures { MatchOption result (length input.now ≡ 0) (λ p. (lines input.now ≡ p.0.now ∷ lines p.1.now) × (length p.1.now < length input.now)) }
{
    if input.is_empty() {
        return None;
    }
    let (line, rest) = input.split_at(line_end(input).unwrap_or(input.len()));
    // The rest begins one byte on, unless nothing is left: by its length, so that a line need not wait for the byte that ends the last.
    match rest {
        [_, after @ ..] => Some((line, after)),
        [] => Some((line, rest)),
    }
}
