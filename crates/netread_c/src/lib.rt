#![tactic(auto)]

ghost use Rattle.netread_c.specs.Door.{HandedOut, Serves};

use constraints::serve;
use std::alloc::Global;

// Writes the bytes where there is room for them all, and tells how many there are.
fn hand_out(printed: &[u8], output: &mut [u8]) -> usize
    ensures { HandedOut printed.now output.old output.new result }
{
    let count = printed.len();
    if count <= output.len() {
        output[..count].copy_from_slice(printed);
    }
    count
}

// What the lines of the input print. `heap` takes no bytes, so C passes nothing for it.
// The greatest number says that memory is wanting, since C takes one number and no `Result`.
#[unsafe(no_mangle)]
pub extern "C" fn netread_serve(heap: Global, input: &[u8], output: &mut [u8]) -> usize
    ensures { Serves input.now output.old output.new result }
{
    match serve(heap, input) {
        Ok(printed) => hand_out(&printed, output),
        Err(_) => usize::MAX,
    }
}
