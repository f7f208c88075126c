use crate::answers::serve;
use std::process::Abort;
use std::test::Fail;

fn prints(rt: &(impl Abort + AllocGlobal), input: &[u8], want: &[u8]) -> Result<(), Fail> {
    let printed = serve(rt.alloc(), input)?;
    assert_eq!(rt; printed.as_slice(), want);
    Ok(())
}

#[test]
fn lines(rt: HostRuntime) -> Result<(), Fail> {
    prints(&rt, b"", b"")?;
    prints(&rt, b"\n", b"?\n")?;
    prints(&rt, b"posix", b"")?;
    prints(&rt, b"first\nfirst\n", b"?\n")?;
    prints(&rt, b"r a\nposix\nr a\nr *a", b"?\n! 13\n")?;
    prints(&rt, b"posix \nposix\nn a\nr\nrr a\n", b"?\n?\n?\n?\n")?;
    prints(&rt, b"\x00\xff\nPosix", b"?\n?\n")
}

#[test]
fn long_inputs(rt: HostRuntime) -> Result<(), Fail> {
    let one_line = vec![in rt.alloc(); b'a'; 65_536]?;
    prints(&rt, &one_line, b"?\n")?;
    let megabyte = vec![in rt.alloc(); b'\n'; 1_048_576]?;
    assert_eq!(rt; serve(rt.alloc(), &megabyte)?.len(), 131_072);
    Ok(())
}
