// Weighing a record: the grade that it gives, offered to the cell that it reaches.
ghost use Rattle.std.specs.Prelude.{◌≡◌};
ghost use Rattle.model.specs.Meaning.{cell_at, record_at};
ghost use Rattle.model.specs.Settling.{size_or_none};
ghost use Rattle.engine.specs.Queues.{SameQueue};
ghost use Rattle.engine.specs.Working.{gives, wakes, visit, visited, SourcesWithin};

use crate::queue::Queue;
use model::heap::Heap;
use model::record::Record;
use model::row::Offer;
use model::scheme::Scheme;

fn size_at<H: Heap>(heap: &H, cell: u16) -> u32
    ensures { result ≡ size_or_none (cell_at (H.Heap.meaning heap.now) cell) }
{
    heap.cell(u32::from(cell)).unwrap_or(0)
}

// The grade that a record gives now, if all its sources are settled.
fn grade_from<S: Scheme, H: Heap>(
    heap: &H,
    queue: &Queue<S>,
    number: u16,
    record: Record,
) -> Option<S::Grade>
    requires { SourcesWithin 1024 «record» }
    ensures { let s = S.Scheme.model queue.now.scheme.now in
        let h = H.Heap.meaning heap.now in
        result ≡ gives s h queue.now.rows.now number «record» }
{
    let scheme = queue.scheme;
    let size = size_at(heap, record.target());
    match record {
        Record::Root { .. } => Some(scheme.start(number, size)),
        Record::Link {
            source,
            strength,
            ..
        } => {
            let from = queue.settled(source)?;
            Some(scheme.along(number, size, from.grade, strength))
        }
        Record::Ephemeron { table, key, .. } => {
            let holds = queue.settled(table)?;
            let opens = queue.settled(key)?;
            Some(scheme.join(number, size, holds.grade, opens.grade))
        }
    }
}

// Whether a record may have become ready when the cell `just` was settled; before any cell
// is settled, whether it is ready at once.
fn is_woken(just: Option<u16>, record: Record) -> bool
    ensures { result ≡ wakes just «record» }
{
    match (just, record) {
        (None, Record::Root { .. }) => true,
        (Some(cell), Record::Link { source, .. }) => source == cell,
        (Some(cell), Record::Ephemeron { table, key, .. }) => table == cell || key == cell,
        _ => false,
    }
}

// Weighs record `number` if it is there and was woken, offers what it gives, and says whether
// it was ready.
pub(crate) fn look_at<S: Scheme, H: Heap>(
    heap: &H,
    queue: &mut Queue<S>,
    just: Option<u16>,
    number: u16,
) -> bool
    ensures after { let s = S.Scheme.model queue.old.scheme.now in
        let h = H.Heap.meaning heap.now in
        queue.new.rows.now ≡ visit s h just number (record_at h number) queue.old.rows.now }
    ensures counted { let s = S.Scheme.model queue.old.scheme.now in
        let h = H.Heap.meaning heap.now in
        result ≡ visited s h just number (record_at h number) queue.old.rows.now }
    ensures same { SameQueue queue.old queue.new }
{
    let Some(record) = heap.record(u32::from(number)) else {
        return false;
    };
    if !is_woken(just, record) {
        return false;
    }
    let Some(grade) = grade_from(heap, queue, number, record) else {
        return false;
    };
    queue.suggest(Offer {
        grade,
        cell: record.target(),
        number,
    });
    true
}
