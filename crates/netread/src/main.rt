#![tactic(auto)]

use session::{LIMIT, serve};
use std::io;
use std::io::{Read, Write};

// The first bytes of standard input, as many as are served; more is not read.
fn read_input(rt: &HostRuntime) -> io::Result<Vec<u8>> {
    let mut input = Vec::new(rt.alloc());
    rt.stdin().take(LIMIT as u64).read_to_end(&mut input)?;
    Ok(input)
}

fn main(rt: HostRuntime) -> io::Result<()> {
    let input = read_input(&rt)?;
    let printed = serve(rt.alloc(), &input)?;
    rt.stdout().write_all(&printed)
}
