// How much of a heap is filled.
ghost use Rattle.std.specs.Prelude.{◌≡◌, map, is_some, count_by};
ghost use Rattle.std.specs.List.{range_with_len};
ghost use Rattle.model.specs.Meaning.{cell_at, record_at};
ghost use Rattle.report.specs.Count.{count_filled};

use model::heap::{CELLS, Heap, RECORDS};

// How many of the first cells are filled. Their number is a parameter, since a proof would write the
// list of 1,024 numbers out.
fn count_cells<H: Heap>(heap: &H, cells: u16) -> u32
    ensures { let h = H.Heap.meaning heap.now in
        result ≡ count_by is_some (map (cell_at h) (range_with_len 0 cells)) }
{
    (0..cells)
        .map(|n| heap.cell(u32::from(n)))
        .filter(|cell| cell.is_some())
        .count() as u32
}

// How many of the first records are filled.
fn count_records<H: Heap>(heap: &H, records: u16) -> u32
    ensures { let h = H.Heap.meaning heap.now in
        result ≡ count_by is_some (map (record_at h) (range_with_len 0 records)) }
{
    (0..records)
        .map(|n| heap.record(u32::from(n)))
        .filter(|record| record.is_some())
        .count() as u32
}

pub fn filled_cells<H: Heap>(heap: &H) -> u32
    ensures { result ≡ count_filled (H.Heap.meaning heap.now).cells }
{
    count_cells(heap, CELLS)
}

pub fn filled_records<H: Heap>(heap: &H) -> u32
    ensures { result ≡ count_filled (H.Heap.meaning heap.now).records }
{
    count_records(heap, RECORDS)
}
