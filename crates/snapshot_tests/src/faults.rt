use super::files::{EDGES, GOOD};
use model::fault::{Cause, Fault};
use snapshot::snapshot::Snapshot;
use std::process::Abort;
use std::test::Fail;

// Whether a file is refused so.
fn check_refused(rt: &impl Abort, file: &[u8], cause: Cause, place: u32) {
    assert_eq!(rt; Snapshot::empty().open(file), Err(Fault { cause, place }));
}

// Whether a file opens.
fn check_opens(rt: &impl Abort, file: &[u8]) {
    assert_eq!(rt; Snapshot::empty().open(file), Ok(()));
}

// A file with another byte at a place of it.
fn with_byte<const N: usize>(rt: &impl Abort, mut file: [u8; N], at: usize, byte: u8) -> [u8; N] {
    *file.get_mut(at).expect(rt, "a place of the file") = byte;
    file
}

#[test]
fn each_fault_at_its_edges(rt: HostRuntime) {
    check_opens(&rt, &GOOD);
    for (at, byte, cause, place) in [
        (0, 68, Cause::LeadBytes, 0),
        (1, 73, Cause::LeadBytes, 0),
        (2, 0, Cause::LeadBytes, 0),
        (3, 5, Cause::LeadBytes, 0),
        (4, 35, Cause::SectionPlace, 4),
        (4, 37, Cause::SectionPlace, 4),
        (7, 1, Cause::SectionPlace, 4),
        (8, 24, Cause::SectionPlace, 12),
        (11, 255, Cause::SectionPlace, 12),
        (12, 67, Cause::SectionPlace, 12),
        (12, 72, Cause::SectionPlace, 12),
        (16, 0, Cause::SectionPlace, 20),
        (20, 64, Cause::SectionPlace, 20),
        (21, 1, Cause::SectionPlace, 20),
        (24, 16, Cause::SectionPlace, 28),
        (28, 95, Cause::SectionPlace, 28),
        (28, 104, Cause::SectionPlace, 28),
        (32, 0, Cause::SectionPlace, 28),
        (32, 7, Cause::SectionPlace, 28),
        (32, 16, Cause::SectionPlace, 28),
        (35, 255, Cause::SectionPlace, 28),
        (37, 4, Cause::FieldRange, 36),
        (61, 4, Cause::FieldRange, 60),
        (38, 1, Cause::FieldRange, 36),
        (63, 128, Cause::FieldRange, 60),
        (40, 0, Cause::FieldRange, 36),
        (64, 0, Cause::FieldRange, 60),
        (42, 16, Cause::FieldRange, 36),
        (67, 1, Cause::FieldRange, 60),
        (69, 16, Cause::FieldRange, 68),
        (73, 16, Cause::FieldRange, 72),
        (97, 16, Cause::FieldRange, 96),
        (71, 4, Cause::FieldRange, 68),
        (75, 4, Cause::FieldRange, 72),
        (77, 4, Cause::FieldRange, 72),
        (99, 4, Cause::FieldRange, 96),
        (101, 4, Cause::FieldRange, 96),
        (103, 4, Cause::FieldRange, 96),
        (78, 4, Cause::FieldRange, 72),
        (94, 255, Cause::FieldRange, 88),
        (95, 1, Cause::FieldRange, 88),
        (44, 0, Cause::NumberOrder, 44),
        (52, 0, Cause::NumberOrder, 52),
        (60, 2, Cause::NumberOrder, 60),
        (80, 1, Cause::NumberOrder, 80),
        (80, 0, Cause::NumberOrder, 80),
        (88, 3, Cause::NumberOrder, 88),
        (88, 2, Cause::NumberOrder, 88),
        (72, 0, Cause::RecordTwice, 72),
        (96, 0, Cause::RecordTwice, 96),
        (96, 1, Cause::RecordTwice, 96),
        (96, 3, Cause::RecordTwice, 96),
        (96, 4, Cause::RecordTwice, 96),
        (60, 4, Cause::CellMissing, 88),
        (70, 4, Cause::CellMissing, 68),
        (71, 1, Cause::CellMissing, 68),
        (74, 4, Cause::CellMissing, 72),
        (76, 4, Cause::CellMissing, 72),
        (77, 3, Cause::CellMissing, 72),
        (92, 7, Cause::CellMissing, 88),
        (98, 4, Cause::CellMissing, 96),
        (100, 4, Cause::CellMissing, 96),
        (102, 4, Cause::CellMissing, 96),
        (103, 3, Cause::CellMissing, 96),
    ] {
        check_refused(&rt, &with_byte(&rt, GOOD, at, byte), cause, place);
    }
}

#[test]
fn numbers_within_their_ranges_are_taken(rt: HostRuntime) {
    for (at, byte) in [
        (40, 1),
        (42, 15),
        (66, 15),
        (68, 5),
        (69, 15),
        (78, 3),
        (88, 255),
        (97, 15),
    ] {
        check_opens(&rt, &with_byte(&rt, GOOD, at, byte));
    }
    check_opens(&rt, &EDGES);
}

#[test]
fn numbers_just_above_their_ranges_are_refused(rt: HostRuntime) {
    for (at, byte, place) in [
        (40, 0, 36),
        (45, 4, 44),
        (48, 1, 44),
        (53, 16, 52),
        (57, 16, 56),
        (62, 4, 56),
        (65, 16, 64),
    ] {
        check_refused(
            &rt,
            &with_byte(&rt, EDGES, at, byte),
            Cause::FieldRange,
            place,
        );
    }
}

// The good file with other offsets and lengths of its four sections in turn, of which it gives the
// lowest bytes.
fn with_pairs(pairs: [u8; 8]) -> [u8; 104] {
    let mut file = GOOD;
    for (place, byte) in file.iter_mut().skip(4).step_by(4).zip(pairs) {
        *place = byte;
    }
    file
}

#[test]
fn a_part_of_an_entry_is_refused(rt: HostRuntime) {
    for (pairs, cause, place) in [
        ([36, 28, 64, 8, 72, 24, 96, 8], Cause::SectionLength, 4),
        ([36, 28, 64, 7, 71, 25, 96, 8], Cause::SectionLength, 4),
        ([36, 32, 68, 2, 70, 26, 96, 8], Cause::SectionLength, 12),
        ([36, 32, 68, 4, 72, 20, 92, 12], Cause::SectionLength, 20),
        ([36, 32, 68, 8, 76, 16, 92, 12], Cause::SectionLength, 28),
        ([36, 28, 64, 8, 72, 24, 97, 8], Cause::SectionPlace, 28),
        ([36, 28, 64, 8, 72, 24, 96, 16], Cause::SectionPlace, 28),
    ] {
        check_refused(&rt, &with_pairs(pairs), cause, place);
    }
}

#[test]
fn lengths_out_of_range(rt: HostRuntime) -> Result<(), Fail> {
    check_refused(&rt, &[], Cause::FileLength, 0);
    check_refused(&rt, &[0; 35], Cause::FileLength, 0);
    check_refused(&rt, &GOOD[..35], Cause::FileLength, 0);
    check_refused(&rt, &[0; 36], Cause::LeadBytes, 0);
    let mut file = vec![in rt.alloc(); 0u8; 65536]?;
    check_refused(&rt, &file[..], Cause::LeadBytes, 0);
    file.push(0)?;
    check_refused(&rt, &file[..], Cause::FileLength, 0);
    Ok(())
}
