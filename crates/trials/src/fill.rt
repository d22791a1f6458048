// Live heaps made by the calls, and heaps held against each other by the two questions.
use live::live::LiveHeap;
use model::fault::Fault;
use model::heap::{CELLS, Heap, RECORDS};
use model::record::Record;

// Fills a record by the call for its kind.
pub fn fill(heap: &mut LiveHeap, number: u32, record: Record) -> Result<(), Fault> {
    match record {
        Record::Root { target } => heap.root(number, u32::from(target)),
        Record::Link {
            source,
            target,
            strength,
        } => heap.link(
            number,
            u32::from(source),
            u32::from(target),
            u32::from(strength),
        ),
        Record::Ephemeron { table, key, value } => {
            heap.tie(number, u32::from(table), u32::from(key), u32::from(value))
        }
    }
}

// A live heap with the same cells and records.
pub fn rebuilt<H: Heap>(heap: &H) -> Result<LiveHeap, Fault> {
    let mut copy = LiveHeap::new();
    for n in 0..u32::from(CELLS) {
        if let Some(size) = heap.cell(n) {
            copy.put(n, size)?;
        }
    }
    for n in 0..u32::from(RECORDS) {
        if let Some(record) = heap.record(n) {
            fill(&mut copy, n, record)?;
        }
    }
    Ok(copy)
}

// At how many numbers two heaps answer the question for cells, or that for records, differently.
pub fn differences<A: Heap, B: Heap>(one: &A, other: &B) -> u32 {
    let cells = (0..u32::from(CELLS))
        .filter(|&n| one.cell(n) != other.cell(n))
        .count();
    let records = (0..u32::from(RECORDS))
        .filter(|&n| one.record(n) != other.record(n))
        .count();
    (cells + records) as u32
}
