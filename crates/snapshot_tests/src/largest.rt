use super::files::LARGEST_HEAD;
use model::heap::Heap;
use model::record::{Record, Strength};
use snapshot::snapshot::Snapshot;
use std::alloc::AllocError;
use std::process::Abort;
use std::test::Fail;

// Adds entries that differ only in their numbers, 256 for each high byte below `highs`.
fn write_entries(out: &mut Vec<u8>, highs: u8, fields: [u8; 6]) -> Result<(), AllocError> {
    for high in 0..highs {
        for low in 0..=255u8 {
            out.extend_from_slice(&[low, high])?;
            out.extend_from_slice(&fields)?;
        }
    }
    Ok(())
}

// Whether every cell has the largest size, and every record is a phantom link from cell
// 1023 to cell 0.
fn check_shows_all(rt: &impl Abort, heap: &Snapshot) {
    let link = Record::Link {
        source: 1023,
        target: 0,
        strength: Strength::Phantom,
    };
    for n in 0..1024 {
        assert_eq!(rt; heap.cell(n), Some(1048576));
    }
    for n in 0..4096 {
        assert_eq!(rt; heap.record(n), Some(link));
    }
    assert_eq!(rt; heap.cell(1024), None);
    assert_eq!(rt; heap.record(4096), None);
}

fn check_opens_to_all(rt: &impl Abort, file: &[u8]) {
    assert_eq!(rt; file.len(), 40996);
    let mut heap = Snapshot::empty();
    assert_eq!(rt; heap.open(file), Ok(()));
    check_shows_all(rt, &heap);
}

#[test]
fn the_largest_file(rt: HostRuntime) -> Result<(), Fail> {
    let mut file = Vec::new(rt.alloc());
    file.extend_from_slice(&LARGEST_HEAD)?;
    write_entries(&mut file, 4, [0, 0, 0, 0, 16, 0])?;
    write_entries(&mut file, 16, [255, 3, 0, 0, 3, 0])?;
    check_opens_to_all(&rt, &file[..]);
    Ok(())
}
