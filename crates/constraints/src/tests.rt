use crate::answers::serve;
use std::process::Abort;
use std::test::Fail;

// This and two tests are much as in `session`, whose tests cannot be called from here.
fn prints(rt: &(impl Abort + AllocGlobal), input: &[u8], want: &[u8]) -> Result<(), Fail> {
    let printed = serve(rt.alloc(), input)?;
    assert_eq!(rt; printed.as_slice(), want);
    Ok(())
}

// Some bytes, then others so many times, and then the rest.
fn repeated(
    rt: &HostRuntime,
    front: &[u8],
    piece: &[u8],
    times: usize,
    rest: &[u8],
) -> Result<Vec<u8>, Fail> {
    let mut bytes = front.to_vec(rt.alloc())?;
    for _ in 0..times {
        bytes.extend_from_slice(piece)?;
    }
    bytes.extend_from_slice(rest)?;
    Ok(bytes)
}

#[test]
fn lines(rt: HostRuntime) -> Result<(), Fail> {
    prints(&rt, b"", b"")?;
    prints(&rt, b"\n", b"?\n")?;
    prints(&rt, b"posix", b"")?;
    prints(&rt, b"first\nfirst\nposix", b"?\n?\n")?;
    prints(&rt, b"r a\nposix\nr a\nr *a", b"?\n! 13\n")?;
    prints(&rt, b"posix \nposix\nn a\nr\nrr a\nn", b"?\n-\n?\n?\n?\n")?;
    prints(&rt, b"\x00\xff\nPosix", b"?\n?\n")
}

#[test]
fn policies(rt: HostRuntime) -> Result<(), Fail> {
    prints(
        &rt,
        b"posix\nr (a|ab)(b|)\nn AB\nn ba\n",
        b"0 0:0-2 1:0-2 3:0-2 4:0-1 5:1-2 6:2-2 8:2-2\n-\n",
    )?;
    prints(
        &rt,
        b"first\nr (a|ab)(b|)\nposix\nn AB\nr ba\nn BA",
        b"?\n0 0:0-2 1:0-1 2:0-1 6:1-2 7:1-2\n1 0:0-2 1:0-1 2:1-2\n",
    )?;
    prints(&rt, b"posix\nr a*\nn \nn b", b"0 0:0-0\n-\n")
}

// A seventeenth rule is denied by 1, and a text that is no rule by 13 even then.
#[test]
fn sheet_is_full(rt: HostRuntime) -> Result<(), Fail> {
    let input = repeated(&rt, b"posix\n", b"r a\n", 17, b"r *a\nn a\n")?;
    prints(&rt, &input, b"! 1\n! 13\n0 0:0-1\n")
}

// A name of 121 symbols is denied by 8; with 64 nodes a bench for 31 symbols is there, and none for 32.
#[test]
fn names_at_their_limits(rt: HostRuntime) -> Result<(), Fail> {
    let input = repeated(&rt, b"posix\nr .*\nn ", b"x", 121, b"\n")?;
    prints(&rt, &input, b"! 8\n")?;
    let input = repeated(&rt, b"posix\nr .*\nn ", b"x", 120, b"\n")?;
    prints(&rt, &input, b"0 0:0-120\n")?;
    let rule = repeated(&rt, b"first\nr ", b"a", 31, b"a*\nn ")?;
    let input = repeated(&rt, &rule, b"a", 32, b"\n")?;
    prints(&rt, &input, b"! 9\n")?;
    let input = repeated(&rt, &rule, b"a", 31, b"\n")?;
    assert_eq!(rt; serve(rt.alloc(), &input)?.len(), 530);
    Ok(())
}

#[test]
fn long_inputs(rt: HostRuntime) -> Result<(), Fail> {
    let one_line = vec![in rt.alloc(); b'a'; 65_536]?;
    prints(&rt, &one_line, b"?\n")?;
    let megabyte = vec![in rt.alloc(); b'\n'; 1_048_576]?;
    assert_eq!(rt; serve(rt.alloc(), &megabyte)?.len(), 131_072);
    Ok(())
}
