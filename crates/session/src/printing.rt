ghost use Rattle.std.specs.Prelude.{◌≡◌, IfOk, string_bytes};
ghost use Rattle.rules.specs.Denials.{number};
ghost use Rattle.session.specs.Served.{Prints, asked, denied};

use rules::Denial;
use std::alloc::{AllocError, Global};

// `! ` and the number, on a line.
fn denial_line(heap: Global, denial: Denial) -> Result<String, AllocError>
    ensures { IfOk result (λ s. string_bytes s ≡ denied (number denial)) }
{
    let number = denial.number();
    format!(in heap; "! {number}\n")
}

// Prints `! ` and the number.
pub fn print_denial(denial: Denial, out: &mut Vec<u8>) -> Result<(), AllocError>
    ensures { Prints result (denied (number denial)) out.old.items out.new.items }
{
    let line = denial_line(*out.allocator(), denial)?;
    out.extend_from_slice(line.as_bytes())
}

// Prints `?`.
pub fn print_question(out: &mut Vec<u8>) -> Result<(), AllocError>
    ensures { Prints result asked out.old.items out.new.items }
{
    out.extend_from_slice(b"?\n")
}
