// What a record gives.
ghost use Rattle.std.specs.Prelude.{◌≡◌};
ghost use Rattle.naive.specs.Resting.{given_by};

use crate::grades::fetch;
use model::heap::Heap;
use model::record::Record;
use model::scheme::Scheme;

// The grade that a record gives, if all its sources have grades.
pub fn grade_from<S: Scheme, H: Heap>(
    scheme: &S,
    heap: &H,
    grades: &[Option<S::Grade>],
    number: u16,
    record: Record,
) -> Option<S::Grade>
    ensures { let s = S.Scheme.model scheme.now in
        let h = H.Heap.meaning heap.now in
        result ≡ given_by s h grades.now number «record» }
{
    let size = heap.cell(u32::from(record.target())).unwrap_or(0);
    match record {
        Record::Root { .. } => Some(scheme.start(number, size)),
        Record::Link {
            source,
            strength,
            ..
        } => Some(scheme.along(number, size, fetch(grades, source)?, strength)),
        Record::Ephemeron { table, key, .. } => {
            let holds = fetch(grades, table)?;
            let opens = fetch(grades, key)?;
            Some(scheme.join(number, size, holds, opens))
        }
    }
}
