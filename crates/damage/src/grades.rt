// Whether two heaps have the same grades.
use engine::grade;
use model::heap::{CELLS, Heap};
use model::row::Row;
use model::scheme::Scheme;
use schemes::bytes::ByBytes;
use schemes::depth::ByDepth;
use schemes::strength::ByStrength;

// A place for each cell.
type Rows<G> = [Option<Row<G>>; CELLS as usize];

fn no_rows<G: Copy>() -> Rows<G> {
    [None; CELLS as usize]
}

// Whether both heaps are graded alike under a scheme: counts, grades, holders and turns.
fn agree<S: Scheme, A: Heap, B: Heap>(
    scheme: &S,
    one: &A,
    other: &B,
    mut ones: Rows<S::Grade>,
    mut others: Rows<S::Grade>,
) -> bool
where
    S::Grade: PartialEq,
{
    let Ok(counts) = grade(scheme, one, &mut ones) else {
        return false;
    };
    grade(scheme, other, &mut others) == Ok(counts) && ones == others
}

// Whether both heaps are graded alike under every scheme. The rows are made here, where the size of
// a grade is known.
pub fn have_same_grades<A: Heap, B: Heap>(one: &A, other: &B) -> bool {
    agree(&ByStrength, one, other, no_rows(), no_rows())
        && agree(&ByBytes, one, other, no_rows(), no_rows())
        && agree(&ByDepth, one, other, no_rows(), no_rows())
}
