#![tactic(auto)]

ghost use Rattle.std.specs.Prelude.{◌≡◌, ◌≤◌, length, take, IfErr, IfOk, OnOk};
ghost use Rattle.model.specs.Sweeping.{sweep_fault, sweep_answer, sweep_after};
ghost use Rattle.model.specs.Sweeping.{rows_swept, cells_swept, records_swept};
ghost use Rattle.model.specs.Sweeping.{KeepsExactly, KeepsGrades, Lists, Dropped, Cleared};
ghost use Rattle.live.specs.Live.{meaning_of};

use engine::grade;
use lists::{list_cells, list_records};
use live::live::LiveHeap;
use marks::mark;
use model::fault::{Cause, Fault};
use model::heap::{CELLS, RECORDS};
use model::row::{Row, Swept};
use model::scheme::Scheme;

mod lists;
mod marks;

// Refuses working memory of which there is too little for whatever a sweep may find.
fn judge<G>(rows: &[Option<Row<G>>], cells: &[u16], records: &[u16]) -> Result<(), Fault>
    ensures fault { IfErr result (λ x. sweep_fault rows.now cells.now records.now ≡ Some x) }
    ensures none { OnOk result (sweep_fault rows.now cells.now records.now ≡ None) }
    ensures rows { OnOk result (1024 ≤ length rows.now) }
    ensures cells { OnOk result (1024 ≤ length cells.now) }
    ensures records { OnOk result (4096 ≤ length records.now) }
{
    let cause = if rows.len() < CELLS as usize {
        Cause::RowsShort
    } else if cells.len() < CELLS as usize {
        Cause::CellsShort
    } else if records.len() < RECORDS as usize {
        Cause::RecordsShort
    } else {
        return Ok(());
    };
    Err(cause.at(0))
}

// Grades the cells of `heap` under `scheme`, and drops each that is not reached at all or whose
// grade is worse than `limit`, with every record that names one. The numbers of the cells dropped
// and of the records cleared, rising, become the front of the two lists; the answer counts them.
// Refused are, in this order, fewer than 1,024 rows, places for fewer than 1,024 cells and places
// for fewer than 4,096 records; then nothing changes.
// So exactly the cells with a derivation no worse than the limit stay, each with the best grade that
// it had, and the lists name exactly the cells dropped and the records that named one.
pub fn sweep<S: Scheme>(
    scheme: &S,
    heap: &mut LiveHeap,
    limit: S::Grade,
    rows: &mut [Option<Row<S::Grade>>],
    cells: &mut [u16],
    records: &mut [u16],
) -> Result<Swept, Fault>
    ensures answers { let s = S.Scheme.model scheme.now in
        let h = meaning_of heap.old in
        result ≡ sweep_answer s h limit rows.old cells.old records.old }
    ensures leaves { let s = S.Scheme.model scheme.now in
        let h = meaning_of heap.old in
        meaning_of heap.new
        ≡ sweep_after s h limit rows.old cells.old records.old }
    ensures fills { let s = S.Scheme.model scheme.now in
        let h = meaning_of heap.old in
        rows.new
        ≡ rows_swept s h limit rows.old cells.old records.old }
    ensures lists_cells { let s = S.Scheme.model scheme.now in
        let h = meaning_of heap.old in
        cells.new
        ≡ cells_swept s h limit rows.old cells.old records.old }
    ensures lists_records { let s = S.Scheme.model scheme.now in
        let h = meaning_of heap.old in
        records.new
        ≡ records_swept s h limit rows.old cells.old records.old }
    ensures keeps_exactly { let s = S.Scheme.model scheme.now in
        let h = meaning_of heap.old in
        OnOk result (KeepsExactly s limit h (meaning_of heap.new)) }
    ensures kept_cells_keep_their_grade { let s = S.Scheme.model scheme.now in
        let h = meaning_of heap.old in
        OnOk result (KeepsGrades s limit h (meaning_of heap.new)) }
    ensures names_dropped_cells { let s = S.Scheme.model scheme.now in
        let h = meaning_of heap.old in
        IfOk result (λ k. Lists (Dropped s limit h) (take k.cells cells.new)) }
    ensures names_cleared_records { let s = S.Scheme.model scheme.now in
        let h = meaning_of heap.old in
        IfOk result (λ k. Lists (Cleared s limit h) (take k.records records.new)) }
{
    judge(rows, cells, records)?;
    grade(scheme, heap, rows)?;
    let kept = mark(scheme, limit, &rows[..CELLS as usize]);
    let dropped = list_cells(heap, &kept, cells);
    let cleared = list_records(heap, &kept, records);
    heap.retain(&kept);
    Ok(Swept {
        cells: dropped,
        records: cleared,
    })
}
