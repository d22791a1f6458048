// The passes over the records.
ghost use Rattle.std.specs.Prelude.{◌≡◌, true, false, Some};
ghost use Rattle.model.specs.Meaning.{record_at};
ghost use Rattle.naive.specs.Resting.{betters, changes, moves, AtRest};

use crate::give::grade_from;
use crate::grades::{fetch, store};
use model::heap::{CELLS, Heap, RECORDS};
use model::scheme::{Rank, Scheme};

// A best way to a cell goes through no cell twice, so that 1,024 passes find it, and one more
// finds nothing.
const PASSES: u16 = CELLS + 1;

// Whether a grade is better than what a cell has.
fn is_better<S: Scheme>(scheme: &S, new: S::Grade, old: Option<S::Grade>) -> bool
    ensures { result ≡ betters (S.Scheme.model scheme.now) new old }
{
    old.is_none_or(|old| scheme.rank(new, old) == Rank::Before)
}

// Writes a grade down where it is better than what the cell has, and says whether it was.
fn improve<S: Scheme>(
    scheme: &S,
    grades: &mut [Option<S::Grade>],
    cell: u16,
    grade: S::Grade,
) -> bool
    ensures moved { let s = S.Scheme.model scheme.now in
        result ≡ changes s grades.old cell (Some grade) }
    ensures still { result ≡ false → grades.new ≡ grades.old }
{
    is_better(scheme, grade, fetch(grades, cell)) && store(grades, cell, grade)
}

// Lets a record give its target a better grade, and says whether it did.
fn visit<S: Scheme, H: Heap>(
    scheme: &S,
    heap: &H,
    grades: &mut [Option<S::Grade>],
    number: u16,
) -> bool
    ensures moved { let s = S.Scheme.model scheme.now in
        let h = H.Heap.meaning heap.now in
        result ≡ moves s h grades.old number (record_at h number) }
    ensures still { result ≡ false → grades.new ≡ grades.old }
{
    let Some(record) = heap.record(u32::from(number)) else {
        return false;
    };
    let Some(grade) = grade_from(scheme, heap, grades, number, record) else {
        return false;
    };
    improve(scheme, grades, record.target(), grade)
}

// Lets every record give what it can, and says whether a grade changed.
fn pass<S: Scheme, H: Heap>(scheme: &S, heap: &H, grades: &mut [Option<S::Grade>]) -> bool
    ensures { let s = S.Scheme.model scheme.now in
        let h = H.Heap.meaning heap.now in
        (result ≡ false → AtRest s h grades.new) }
{
    let mut changed = false;
    for number in 0..RECORDS {
        changed |= visit(scheme, heap, grades, number);
    }
    changed
}

// Grades the cells of `heap` under `scheme`, and says whether the grades came to rest, so that
// no record gives its target a better one.
pub fn grade<S: Scheme, H: Heap>(scheme: &S, heap: &H, grades: &mut [Option<S::Grade>]) -> bool
    ensures { let s = S.Scheme.model scheme.now in
        let h = H.Heap.meaning heap.now in
        (result ≡ true → AtRest s h grades.new) }
{
    grades.fill(None);
    for _ in 0..PASSES {
        if !pass(scheme, heap, grades) {
            return true;
        }
    }
    false
}
