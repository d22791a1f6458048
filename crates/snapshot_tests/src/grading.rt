use super::files::GOOD;
use engine::grade;
use live::live::LiveHeap;
use model::row::{Counts, Row};
use schemes::bytes::ByBytes;
use snapshot::snapshot::Snapshot;
use std::test::Fail;

#[test]
fn a_saved_heap_grades_as_a_live_one(rt: HostRuntime) -> Result<(), Fail> {
    let mut live = LiveHeap::new();
    for (cell, size) in [(0, 10), (1, 20), (2, 5), (3, 8)] {
        live.put(cell, size)?;
    }
    live.root(0, 0)?;
    live.link(1, 0, 1, 0)?;
    live.tie(2, 1, 2, 3)?;
    live.link(3, 0, 2, 2)?;
    live.link(4, 3, 2, 0)?;
    let mut saved = Snapshot::empty();
    saved.open(&GOOD)?;
    let counts = Counts {
        settled: 4,
        weighed: 5,
    };
    let mut live_rows: [Option<Row<u32>>; 1024] = [None; 1024];
    let mut saved_rows: [Option<Row<u32>>; 1024] = [None; 1024];
    assert_eq!(rt; grade(&ByBytes, &live, &mut live_rows), Ok(counts));
    assert_eq!(rt; grade(&ByBytes, &saved, &mut saved_rows), Ok(counts));
    assert_eq!(rt; saved_rows, live_rows);
    let last = Row {
        grade: 53,
        holder: 2,
        turn: 3,
    };
    assert_eq!(rt; saved_rows[3], Some(last));
    Ok(())
}
