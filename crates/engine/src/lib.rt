#![tactic(auto)]

ghost use Rattle.std.specs.Prelude.{◌≡◌, ℕ, ◌<◌, ◌≤◌, length, take, IfOk, None, OnOk, slice_index_or};
ghost use Rattle.model.specs.Grading.{grade_answer, grade_after, Tells, Numbered, Worsens, AllBacked};
ghost use Rattle.laws.specs.Order.{InOrder, OnlyInOrder};

use model::fault::{Cause, Fault};
use model::heap::{CELLS, Heap};
use model::row::{Counts, Row};
use model::scheme::Scheme;
use turns::settle_all;

mod queue;
mod tree;
mod turns;
mod weigh;

// Grades the cells of `heap` under `scheme`. The first 1,024 rows become those of the
// settling rule, whatever they held, and the others stand; fewer rows are refused.
// So each row has the grade of a best derivation, and a cell without a row has none.
// Turns number the settled cells from 0 up, in an order in which grades never get better,
// and what holds a cell draws only on cells that were settled before it. That the rows are in the
// order of settling, with each cell taken before all that could have been, is said as a relation
// that no other table of rows meets.
pub fn grade<S: Scheme, H: Heap>(
    scheme: &S,
    heap: &H,
    rows: &mut [Option<Row<S::Grade>>],
) -> Result<Counts, Fault>
    ensures answers { let s = S.Scheme.model scheme.now in
        let h = H.Heap.meaning heap.now in
        result ≡ grade_answer s h rows.old }
    ensures fills { let s = S.Scheme.model scheme.now in
        let h = H.Heap.meaning heap.now in
        rows.new ≡ grade_after s h rows.old }
    ensures tells { let s = S.Scheme.model scheme.now in
        let h = H.Heap.meaning heap.now in
        ((c : ℕ) → c < 1024 → 1024 ≤ length rows.old
        → Tells s h c (slice_index_or rows.new c None)) }
    ensures numbered { IfOk result (λ k. Numbered (take 1024 rows.new) k.settled) }
    ensures worsens { let s = S.Scheme.model scheme.now in
        OnOk result (Worsens s (take 1024 rows.new)) }
    ensures backed { let s = S.Scheme.model scheme.now in
        let h = H.Heap.meaning heap.now in
        OnOk result (AllBacked s h (take 1024 rows.new)) }
    ensures in_order { let s = S.Scheme.model scheme.now in
        let h = H.Heap.meaning heap.now in
        IfOk result (λ k. InOrder s h (take 1024 rows.new) k.settled) }
    ensures alone { let s = S.Scheme.model scheme.now in
        let h = H.Heap.meaning heap.now in
        OnOk result (OnlyInOrder s h (take 1024 rows.new)) }
{
    if rows.len() < CELLS as usize {
        return Err(Cause::RowsShort.at(0));
    }
    Ok(settle_all(scheme, heap, &mut rows[..CELLS as usize]))
}
