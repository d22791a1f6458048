use live::live::LiveHeap;
use script::line::answer;
use std::process::Abort;
use std::test::Fail;

// Whether the lines, one after another on one heap that begins empty, are answered so.
pub(super) fn check_answers(
    rt: &(impl Abort + AllocGlobal),
    table: &[(&str, &str)],
) -> Result<(), Fail> {
    let mut heap = LiveHeap::new();
    let mut out = Vec::new(rt.alloc());
    for (line, expected) in table {
        out.clear();
        answer(&mut heap, line.as_bytes(), &mut out)?;
        assert_eq!(rt; out.pop(), Some(b'\n'), "{}", *line);
        assert_eq!(rt; &out[..], expected.as_bytes(), "{}", *line);
    }
    Ok(())
}
