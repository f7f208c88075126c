ghost use Rattle.std.specs.Prelude.{◌≡◌, ◌++◌, IfOk, Some, Ok, Err, decimal, OnOk};
ghost use Rattle.rules.specs.Denials.{number};
ghost use Rattle.session.specs.Served.{Prints};
ghost use Rattle.constraints.specs.Printed.{entry_said, name_said};

use itoa::Buffer;
use rules::Denial;
use session::print_denial;
use std::alloc::{AllocError, Global};

// The number in base ten, behind the line.
fn push_number(line: &mut Vec<u8>, n: usize) -> Result<(), AllocError>
    ensures { OnOk result (line.new.items ≡ line.old.items ++ decimal n) }
{
    line.extend_from_slice(Buffer::new().format(n).as_bytes())
}

// Prints `-` where no rule reads the name, else `! ` and the number.
pub(crate) fn print_refusal(denial: Denial, out: &mut Vec<u8>) -> Result<(), AllocError>
    ensures { Prints result (name_said (Err (number denial))) out.old.items out.new.items }
{
    match denial {
        Denial::NotRead => out.extend_from_slice(b"-\n"),
        _ => print_denial(denial, out),
    }
}

// ` node:start-end`, behind the line.
// Piece by piece: with `format!` 2.5 million names a second are answered, and docs/speed.md has 2.8 million.
fn push_stretch(line: &mut Vec<u8>, node: usize, start: usize, end: usize) -> Result<(), AllocError>
    ensures { OnOk result (line.new.items ≡ line.old.items ++ entry_said node (Some (start, end))) }
{
    line.push(b' ')?;
    push_number(line, node)?;
    line.push(b':')?;
    push_number(line, start)?;
    line.push(b'-')?;
    push_number(line, end)
}

// The place, and the stretch of each node that has one, on a line.
// A loop, since each piece may run out of memory.
fn reading_line(
    heap: Global,
    place: usize,
    reading: &[Option<(usize, usize)>],
) -> Result<Vec<u8>, AllocError>
    ensures { IfOk result (λ v. v.items ≡ name_said (Ok (place, reading.now))) }
{
    let mut line = Vec::with_capacity(heap, 256)?;
    push_number(&mut line, place)?;
    for (node, entry) in reading.iter().enumerate() {
        if let Some((start, end)) = entry {
            push_stretch(&mut line, node, *start, *end)?;
        }
    }
    line.push(b'\n')?;
    Ok(line)
}

// Prints the place and the reading.
pub(crate) fn print_reading(
    place: usize,
    reading: &[Option<(usize, usize)>],
    out: &mut Vec<u8>,
) -> Result<(), AllocError>
    ensures { Prints result (name_said (Ok (place, reading.now))) out.old.items out.new.items }
{
    let line = reading_line(*out.allocator(), place, reading)?;
    out.extend_from_slice(&line)
}
