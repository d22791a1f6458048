// The lists of what a sweep takes away.
ghost use Rattle.std.specs.Prelude.{◌≡◌, ℕ, ◌<◌, ◌≤◌, Bool, filter, length};
ghost use Rattle.std.specs.List.{range_with_len};
ghost use Rattle.model.specs.Meaning.{cell_at, record_at};
ghost use Rattle.model.specs.Sweeping.{dropped_cells, cleared_records, over};
ghost use Rattle.live.specs.Flagged.{flagged};
ghost use Rattle.live.specs.Live.{meaning_of};
ghost use Rattle.sweep.specs.Listing.{picks, drops, clears};

use live::flags::{Kept, is_kept, names_kept};
use live::live::LiveHeap;
use model::heap::{CELLS, Heap, RECORDS};

// Whether cell `cell` is filled and goes.
fn is_dropped(heap: &LiveHeap, kept: &Kept, cell: u16) -> bool
    ensures { let h = meaning_of heap.now in
        result ≡ picks (drops kept.now) cell (cell_at h cell) }
{
    heap.cell(u32::from(cell)).is_some() && !is_kept(kept, cell)
}

// Whether record `number` is filled and names a cell that goes.
fn is_cleared(heap: &LiveHeap, kept: &Kept, number: u16) -> bool
    ensures { let h = meaning_of heap.now in
        result ≡ picks (clears kept.now) number (record_at h number) }
{
    heap.record(u32::from(number))
        .is_some_and(|record| !names_kept(kept, record))
}

// Writes the numbers below `end` that go, rising, over the front of a list, and counts them. The
// count is kept by hand, since an iterator that lends the places to be written does not say that
// those behind the count stand.
fn list<F: Fn(u16) -> bool>(end: u16, goes: F, numbers: &mut [u16]) -> u32
    ghost test: { ℕ → Bool }
    requires callable { (n : ℕ) → n < end → F.pre goes n }
    requires decides { (n : ℕ) (gone : Bool) → n < end → F.post goes n gone → gone ≡ test n }
    requires room { end ≤ length numbers.old }
    ensures counts { result ≡ length (filter test (range_with_len 0 end)) }
    ensures lists { numbers.new ≡ over (filter test (range_with_len 0 end)) numbers.old }
{
    let mut count = 0;
    for number in 0..end {
        if goes(number) {
            numbers[count] = number;
            count += 1;
        }
    }
    count as u32
}

// Lists the cells that go, and counts them.
pub(crate) fn list_cells(heap: &LiveHeap, kept: &Kept, cells: &mut [u16]) -> u32
    requires { 1024 ≤ length cells.old }
    ensures counts { let h = meaning_of heap.now in
        result ≡ length (dropped_cells (flagged kept.now) h) }
    ensures lists { let h = meaning_of heap.now in
        let keep = flagged kept.now in
        cells.new ≡ over (dropped_cells keep h) cells.old }
{
    list(CELLS, |cell| is_dropped(heap, kept, cell), cells)
}

// Lists the records that go with them, and counts those.
pub(crate) fn list_records(heap: &LiveHeap, kept: &Kept, records: &mut [u16]) -> u32
    requires { 4096 ≤ length records.old }
    ensures counts { let h = meaning_of heap.now in
        result ≡ length (cleared_records (flagged kept.now) h) }
    ensures lists { let h = meaning_of heap.now in
        let keep = flagged kept.now in
        records.new ≡ over (cleared_records keep h) records.old }
{
    list(RECORDS, |number| is_cleared(heap, kept, number), records)
}
