#![tactic(auto)]

ghost use Rattle.std.specs.Prelude.{◌≡◌, ◌<◌, ◌≤◌, ◌++◌, length, take, drop, IfOk};
ghost use Rattle.model.specs.Faults.{answer, left};
ghost use Rattle.model.specs.Explaining.{room_fault, told, listed};
ghost use Rattle.model.specs.Explaining.{why_answer, rows_after, steps_after, Unfolds};
ghost use Rattle.laws.specs.Concerned.{Steps};

use engine::grade;
use model::fault::{Cause, Fault};
use model::heap::{CELLS, Heap};
use model::row::{Row, Why};
use model::scheme::Scheme;
use order::Graded;
use walk::walk;

mod order;
mod walk;

// Copies the steps to the front of the list, if it holds them all, and counts them.
fn hand_over(path: &[u16], steps: &mut [u16]) -> Result<u32, Fault>
    requires { length path.now ≤ 1024 }
    ensures answers { let path = path.now in
        result ≡ answer (room_fault path steps.old) (length path) }
    ensures lists { let path = path.now in
        let old = steps.old in
        steps.new ≡ left (room_fault path old) (path ++ drop (length path) old) old }
{
    let count = path.len();
    if steps.len() < count {
        return Err(Cause::StepsShort.at(0));
    }
    // get_mut would not say that the places behind stand.
    steps[..count].copy_from_slice(path);
    Ok(count as u32)
}

// Explains `cell` by the rows that grading left.
fn tell<G: Copy, H: Heap>(
    heap: &H,
    graded: &Graded<'_, G>,
    cell: u16,
    steps: &mut [u16],
) -> Result<Why<G>, Fault>
    requires { cell < 1024 }
    ensures answers { let h = H.Heap.meaning heap.now in
        result ≡ told h graded.now.rows.now cell steps.old }
    ensures lists { let h = H.Heap.meaning heap.now in
        steps.new ≡ listed h graded.now.rows.now cell steps.old }
{
    let row = graded.rows[cell as usize].ok_or(Cause::NotSettled.at(2))?;
    let path = walk(heap, graded, cell, row.turn);
    let count = hand_over(&path, steps)?;
    Ok(Why {
        grade: row.grade,
        count,
    })
}

// Grades the cells of `heap` under `scheme` and explains why `cell` survives: its grade, and the
// records that hold it up, which become the first steps of the list. They are the holders of the
// cell and, repeatedly, of the sources of these holders, in order of turn, one for each cell.
// So the steps unfold into a derivation of the cell with that grade.
// Refused are, in this order, too few rows, a number that is no cell's, a cell that is not
// settled, and a list too short; the first two leave the rows alone, and all four the list.
pub fn why<S: Scheme, H: Heap>(
    scheme: &S,
    heap: &H,
    cell: u32,
    rows: &mut [Option<Row<S::Grade>>],
    steps: &mut [u16],
) -> Result<Why<S::Grade>, Fault>
    ensures answers { let s = S.Scheme.model scheme.now in
        let h = H.Heap.meaning heap.now in
        result ≡ why_answer s h cell rows.old steps.old }
    ensures fills { let s = S.Scheme.model scheme.now in
        let h = H.Heap.meaning heap.now in
        rows.new ≡ rows_after s h cell rows.old }
    ensures lists { let s = S.Scheme.model scheme.now in
        let h = H.Heap.meaning heap.now in
        steps.new ≡ steps_after s h cell rows.old steps.old }
    ensures unfolds { let s = S.Scheme.model scheme.now in
        let h = H.Heap.meaning heap.now in
        let graded = take 1024 rows.new in
        IfOk result (λ w. Unfolds s h graded (take w.count steps.new) cell w.grade) }
    ensures concerns { let h = H.Heap.meaning heap.now in
        let graded = take 1024 rows.new in
        IfOk result (λ w. Steps h graded cell (take w.count steps.new)) }
{
    if rows.len() < CELLS as usize {
        return Err(Cause::RowsShort.at(0));
    }
    if cell >= u32::from(CELLS) {
        return Err(Cause::CellNumber.at(2));
    }
    grade(scheme, heap, rows)?;
    let graded = Graded {
        rows: &rows[..CELLS as usize],
    };
    tell(heap, &graded, cell as u16, steps)
}
