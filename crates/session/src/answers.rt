ghost use Rattle.std.specs.Prelude.{take, IfOk};
ghost use Rattle.session.specs.Lines.{lines};
ghost use Rattle.session.specs.Served.{PrintsBy, RulePrints, Answers, Session, start};

use crate::line::{Line, State, kind_of};
// The limit is to be had here too, beside what keeps to it.
pub use crate::lines::LIMIT;
use crate::lines::served_lines;
use crate::printing::{print_denial, print_question};
use rules::{Kind, Row};
use std::alloc::{AllocError, Global};
use text::read;

// This and what follows is done over a sheet in `constraints`, with other promises.

// Prints nothing if the text is read, or the number of its denial.
fn serve_rule(text: &[u8], out: &mut Vec<u8>) -> Result<(), AllocError>
    ensures { PrintsBy result (λ _. RulePrints text.now) out.old.items out.new.items }
{
    // A rule has 64 rows at most, so an array serves, and no memory is asked for.
    let mut rows = [Row::from(Kind::Empty); 64];
    match read(text, &mut rows) {
        Ok(_) => Ok(()),
        Err(denial) => print_denial(denial, out),
    }
}

// Serves one line: the state after it, and what it prints behind what was printed before.
pub fn serve_line(state: State, line: &[u8], out: &mut Vec<u8>) -> Result<State, AllocError>
    ensures { PrintsBy result (λ s. Answers state line.now s) out.old.items out.new.items }
{
    match (state, kind_of(line)) {
        (State::Awaiting, Line::Policy(_)) => Ok(State::Serving),
        (State::Serving, Line::Rule(text)) => {
            serve_rule(text, out)?;
            Ok(state)
        }
        (State::Awaiting, Line::Rule(_))
        | (State::Awaiting, Line::Name(_))
        | (State::Awaiting, Line::Other)
        | (State::Serving, Line::Policy(_))
        | (State::Serving, Line::Name(_))
        | (State::Serving, Line::Other) => {
            print_question(out)?;
            Ok(state)
        }
    }
}

// Serves the input's lines in turn, and gives all that they print.
pub fn serve(heap: Global, input: &[u8]) -> Result<Vec<u8>, AllocError>
    ensures { IfOk result (λ v. Session start (lines (take 65536 input.now)) v.items) }
{
    let mut out = Vec::new(heap);
    let mut state = State::Awaiting;
    for line in served_lines(input) {
        state = serve_line(state, line, &mut out)?;
    }
    Ok(out)
}
