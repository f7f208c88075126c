ghost use Rattle.std.specs.Prelude.{◌≡◌, ℕ, [], ◌++◌, length, take, IfOk, MatchResult};
ghost use Rattle.sheet.specs.Sheets.{locked};
ghost use Rattle.session.specs.Kinds.{rule_line};
ghost use Rattle.session.specs.Lines.{lines};
ghost use Rattle.session.specs.Served.{Appends, PrintsBy, asked};
ghost use Rattle.constraints.specs.Served.{Answers, FileSession};
ghost use Rattle.session.specs.declared.line.State.TheVariants.{Serving};

use crate::adding::add_text;
use crate::naming::serve_name;
use policies::NamedPolicy;
use rules::alphabet::{Bytes, Folding};
pub use session::LIMIT;
use session::{Line, State, kind_of, print_denial, print_question, served_lines};
use sheet::{LockedSheet, OpenSheet};
use std::alloc::{AllocError, Global};

// As many bytes the bench has.
pub const BENCH: usize = 65_536;

// The sheet of a constraint file.
pub type FileSheet = LockedSheet<Folding<Bytes>, NamedPolicy>;

// A locked sheet that holds no rule.
fn opened(heap: Global, policy: NamedPolicy) -> Result<FileSheet, AllocError>
    ensures { IfOk result (λ s. (locked s ≡ []) × (s.kept.policy ≡ policy)) }
{
    let sheet = OpenSheet::open(heap, Folding { inner: Bytes }, policy)?;
    Ok(sheet.lock())
}

// Adds the rule of the text, and prints nothing or the number of the denial.
fn serve_rule(sheet: FileSheet, text: &[u8], out: &mut Vec<u8>) -> Result<FileSheet, AllocError>
    ensures { MatchResult result (λ s. (bench : ℕ) → Appends (Answers bench Serving sheet.kept.policy (locked sheet) (rule_line text.now) Serving s.kept.policy (locked s)) out.old.items out.new.items) (λ _. out.new.items ≡ out.old.items) }
{
    let mut open = sheet.unlock();
    let added = add_text(&mut open, text);
    let sheet = open.lock();
    if let Err(denial) = added {
        print_denial(denial, out)?;
    }
    Ok(sheet)
}

// Prints `?`; state and sheet stay. They are handed through, since a sheet that an arm of many gives back is copied once more a line.
fn question(
    state: State,
    sheet: FileSheet,
    out: &mut Vec<u8>,
) -> Result<(State, FileSheet), AllocError>
    ensures { MatchResult result (λ s. (s.0 ≡ state) × (s.1 ≡ sheet) × (out.new.items ≡ out.old.items ++ asked)) (λ _. out.new.items ≡ out.old.items) }
{
    print_question(out)?;
    Ok((state, sheet))
}

// Serves one line: the state and the sheet after it, and what it prints behind what was printed before.
// `session` has its own `serve`, `serve_line` and `serve_rule`, with no sheet, and so other promises: netread prints what it printed.
// The sheet is moved, and bench and output are borrowed: a struct of the three would be taken apart in each arm.
pub fn serve_line(
    state: State,
    sheet: FileSheet,
    line: &[u8],
    bench: &mut [u8],
    out: &mut Vec<u8>,
) -> Result<(State, FileSheet), AllocError>
    ensures { PrintsBy result (λ s. Answers (length bench.old) state sheet.kept.policy (locked sheet) line.now s.0 s.1.kept.policy (locked s.1)) out.old.items out.new.items }
{
    match (state, kind_of(line)) {
        (State::Awaiting, Line::Policy(policy)) => {
            let sheet = opened(*out.allocator(), policy)?;
            Ok((State::Serving, sheet))
        }
        (State::Serving, Line::Rule(text)) => {
            let sheet = serve_rule(sheet, text, out)?;
            Ok((state, sheet))
        }
        (State::Serving, Line::Name(name)) => {
            serve_name(&sheet, name, bench, out)?;
            Ok((state, sheet))
        }
        (State::Awaiting, Line::Rule(_))
        | (State::Awaiting, Line::Name(_))
        | (State::Awaiting, Line::Other)
        | (State::Serving, Line::Policy(_))
        | (State::Serving, Line::Other) => { question(state, sheet, out) }
    }
}

// Serves the input's lines in turn, and gives all that they print.
pub fn serve(heap: Global, input: &[u8]) -> Result<Vec<u8>, AllocError>
    ensures { IfOk result (λ v. FileSession (lines (take 65536 input.now)) v.items) }
{
    let mut out = Vec::new(heap);
    let mut bench = vec![in heap; 0; BENCH]?;
    let mut state = State::Awaiting;
    let mut sheet = opened(heap, NamedPolicy::Posix)?;
    for line in served_lines(input) {
        (state, sheet) = serve_line(state, sheet, line, &mut bench, &mut out)?;
    }
    Ok(out)
}
