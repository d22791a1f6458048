use super::files::{EDGES, EMPTY, GOOD};
use model::fault::{Cause, Fault};
use model::heap::Heap;
use model::record::{Record, Strength};
use snapshot::snapshot::Snapshot;
use std::process::Abort;
use std::test::Fail;

#[test]
fn nothing_is_shown_before_a_file_is_opened(rt: HostRuntime) {
    let heap = Snapshot::empty();
    assert_eq!(rt; heap.cell(0), None);
    assert_eq!(rt; heap.record(0), None);
}

#[test]
fn an_empty_file_is_an_empty_heap(rt: HostRuntime) {
    let mut heap = Snapshot::empty();
    assert_eq!(rt; heap.open(&EMPTY), Ok(()));
    assert_eq!(rt; heap.cell(0), None);
    assert_eq!(rt; heap.record(0), None);
}

// Whether the four cells and the five records are shown, and nothing else.
fn check_shows_good(rt: &impl Abort, heap: &Snapshot) {
    for (n, size) in [
        (0, Some(10)),
        (1, Some(20)),
        (2, Some(5)),
        (3, Some(8)),
        (4, None),
        (256, None),
        (1023, None),
        (1024, None),
        (65536, None),
        (4294967295, None),
    ] {
        assert_eq!(rt; heap.cell(n), size);
    }
    let strong = Record::Link {
        source: 0,
        target: 1,
        strength: Strength::Strong,
    };
    let tie = Record::Ephemeron {
        table: 1,
        key: 2,
        value: 3,
    };
    let weak = Record::Link {
        source: 0,
        target: 2,
        strength: Strength::Weak,
    };
    let back = Record::Link {
        source: 3,
        target: 2,
        strength: Strength::Strong,
    };
    for (n, record) in [
        (0, Some(Record::Root { target: 0 })),
        (1, Some(strong)),
        (2, Some(tie)),
        (3, Some(weak)),
        (4, Some(back)),
        (5, None),
        (256, None),
        (4095, None),
        (4096, None),
        (65536, None),
        (4294967295, None),
    ] {
        assert_eq!(rt; heap.record(n), record);
    }
}

#[test]
fn entries_are_shown(rt: HostRuntime) -> Result<(), Fail> {
    let mut heap = Snapshot::empty();
    heap.open(&GOOD)?;
    check_shows_good(&rt, &heap);
    Ok(())
}

#[test]
fn the_largest_numbers_are_shown(rt: HostRuntime) -> Result<(), Fail> {
    let mut heap = Snapshot::empty();
    heap.open(&EDGES)?;
    assert_eq!(rt; heap.cell(0), Some(1));
    assert_eq!(rt; heap.cell(1023), Some(1048576));
    let link = Record::Link {
        source: 1023,
        target: 0,
        strength: Strength::Phantom,
    };
    let tie = Record::Ephemeron {
        table: 0,
        key: 1023,
        value: 0,
    };
    assert_eq!(rt; heap.record(4095), Some(Record::Root { target: 1023 }));
    assert_eq!(rt; heap.record(4094), Some(link));
    assert_eq!(rt; heap.record(4093), Some(tie));
    assert_eq!(rt; heap.record(4092), None);
    Ok(())
}

#[test]
fn a_refused_file_leaves_what_was_shown(rt: HostRuntime) {
    let mut heap = Snapshot::empty();
    assert_eq!(rt; heap.open(&GOOD), Ok(()));
    let mut bad = EDGES;
    bad[70] = 1;
    let missing = Fault {
        cause: Cause::CellMissing,
        place: 64,
    };
    assert_eq!(rt; heap.open(&bad), Err(missing));
    check_shows_good(&rt, &heap);
    assert_eq!(rt; heap.open(&EDGES), Ok(()));
    assert_eq!(rt; heap.cell(0), Some(1));
    assert_eq!(rt; heap.cell(1), None);
    assert_eq!(rt; heap.record(0), None);
    assert_eq!(rt; heap.record(4095), Some(Record::Root { target: 1023 }));
}
