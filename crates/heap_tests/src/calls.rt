use live::live::LiveHeap;
use model::fault::{Cause, Fault};
use model::heap::Heap;
use model::record::{Record, Strength};
use std::test::Fail;

fn refused(cause: Cause, place: u32) -> Result<(), Fault> {
    Err(Fault { cause, place })
}

#[test]
fn a_strength_above_3_is_refused(rt: HostRuntime) -> Result<(), Fail> {
    let mut heap = LiveHeap::new();
    heap.put(0, 1)?;
    assert_eq!(rt; heap.link(0, 0, 0, 4), refused(Cause::StrengthNumber, 4));
    assert_eq!(rt;
        heap.link(0, 0, 0, u32::MAX),
        refused(Cause::StrengthNumber, 4)
    );
    assert_eq!(rt; heap.link(0, 0, 1, 4), refused(Cause::CellEmpty, 3));
    assert_eq!(rt; heap.link(0, 0, 0, 3), Ok(()));
    Ok(())
}

#[test]
fn what_calls_fill_is_told(rt: HostRuntime) -> Result<(), Fail> {
    let mut heap = LiveHeap::new();
    heap.put(3, 7)?;
    heap.put(1023, 1048576)?;
    heap.root(0, 3)?;
    heap.link(1, 3, 1023, 2)?;
    heap.tie(4095, 3, 1023, 3)?;
    assert_eq!(rt; heap.cell(3), Some(7));
    assert_eq!(rt; heap.cell(1023), Some(1048576));
    assert_eq!(rt; heap.record(0), Some(Record::Root { target: 3 }));
    let link = Record::Link {
        source: 3,
        target: 1023,
        strength: Strength::Weak,
    };
    assert_eq!(rt; heap.record(1), Some(link));
    let tie = Record::Ephemeron {
        table: 3,
        key: 1023,
        value: 3,
    };
    assert_eq!(rt; heap.record(4095), Some(tie));
    heap.erase(1)?;
    assert_eq!(rt; heap.record(1), None);
    assert_eq!(rt; heap.record(0), Some(Record::Root { target: 3 }));
    Ok(())
}

#[test]
fn a_refused_call_changes_nothing(rt: HostRuntime) -> Result<(), Fail> {
    let mut heap = LiveHeap::new();
    heap.put(3, 7)?;
    heap.root(9, 3)?;
    assert_eq!(rt; heap.put(3, 8), refused(Cause::CellFilled, 1));
    assert_eq!(rt; heap.put(4, 0), refused(Cause::CellSize, 2));
    assert_eq!(rt; heap.root(9, 3), refused(Cause::RecordFilled, 1));
    assert_eq!(rt; heap.link(10, 3, 4, 0), refused(Cause::CellEmpty, 3));
    assert_eq!(rt; heap.tie(10, 3, 3, 4), refused(Cause::CellEmpty, 4));
    assert_eq!(rt; heap.erase(10), refused(Cause::RecordEmpty, 1));
    assert_eq!(rt; heap.cell(3), Some(7));
    assert_eq!(rt; heap.cell(4), None);
    assert_eq!(rt; heap.record(9), Some(Record::Root { target: 3 }));
    assert_eq!(rt; heap.record(10), None);
    Ok(())
}

#[test]
fn numbers_too_large_are_empty(rt: HostRuntime) -> Result<(), Fail> {
    let mut heap = LiveHeap::new();
    heap.put(0, 7)?;
    heap.root(0, 0)?;
    for n in [1024, 65536, 4294967295] {
        assert_eq!(rt; heap.cell(n), None);
    }
    for n in [4096, 65536, 4294967295] {
        assert_eq!(rt; heap.record(n), None);
    }
    Ok(())
}
