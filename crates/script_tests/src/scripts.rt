use script::script::Script;
use std::alloc::AllocError;
use std::process::Abort;
use std::test::Fail;

fn feed(script: &mut Script, input: &[u8], out: &mut Vec<u8>) -> Result<(), AllocError> {
    for &byte in input {
        script.take(byte, out)?;
    }
    Ok(())
}

// Whether a script prints this.
fn check_prints(rt: &(impl Abort + AllocGlobal), input: &str, expected: &str) -> Result<(), Fail> {
    let mut script = Script::new();
    let mut out = Vec::new(rt.alloc());
    feed(&mut script, input.as_bytes(), &mut out)?;
    script.end(&mut out)?;
    assert_eq!(rt; &out[..], expected.as_bytes());
    Ok(())
}

#[test]
fn nothing_prints_nothing(rt: HostRuntime) -> Result<(), Fail> {
    check_prints(&rt, "", "")
}

#[test]
fn the_last_line_needs_no_newline(rt: HostRuntime) -> Result<(), Fail> {
    check_prints(&rt, "c 0 5\nr 0 0\ng b", "ok\nok\nok 1 1 0=5/0\n")?;
    check_prints(&rt, "c 0 5\nr 0 0\ng b\n", "ok\nok\nok 1 1 0=5/0\n")
}

#[test]
fn empty_lines_are_answered(rt: HostRuntime) -> Result<(), Fail> {
    check_prints(&rt, "\n", "no t 31 0\n")?;
    check_prints(&rt, "c 0 5\n\nx 0\n", "ok\nno t 31 0\nno h 8 2\n")
}

#[test]
fn a_long_line_is_refused_once(rt: HostRuntime) -> Result<(), Fail> {
    let mut script = Script::new();
    let mut out = Vec::new(rt.alloc());
    feed(&mut script, &[b'7'; 200], &mut out)?;
    assert!(rt; out.is_empty());
    script.take(b'\n', &mut out)?;
    assert_eq!(rt; &out[..], b"no t 30 80\n".as_slice());
    out.clear();
    feed(&mut script, b"c 0 5\n", &mut out)?;
    assert_eq!(rt; &out[..], b"ok\n".as_slice());
    Ok(())
}
