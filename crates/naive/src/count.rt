// What grading counts, counted again from the grades.
ghost use Rattle.std.specs.Prelude.{◌≡◌, map, take, is_some, None, count_by, slice_index_or};
ghost use Rattle.std.specs.List.{range_with_len};
ghost use Rattle.model.specs.Meaning.{record_at};
ghost use Rattle.naive.specs.Resting.{all_graded, ready_by};

use crate::grades::fetch;
use model::heap::{CELLS, Heap, RECORDS};
use model::record::Record;
use model::row::Counts;

fn is_graded<G: Copy>(grades: &[Option<G>], cell: u16) -> bool
    ensures { result ≡ is_some (slice_index_or grades.now cell None) }
{
    fetch(grades, cell).is_some()
}

// Whether all sources of a record have grades.
fn has_sources<G: Copy>(grades: &[Option<G>], record: Record) -> bool
    ensures { result ≡ all_graded grades.now «record» }
{
    match record {
        Record::Root { .. } => true,
        Record::Link { source, .. } => is_graded(grades, source),
        Record::Ephemeron { table, key, .. } => is_graded(grades, table) && is_graded(grades, key),
    }
}

// Whether a record stands there, and all its sources have grades.
fn is_ready<G: Copy>(grades: &[Option<G>], place: Option<Record>) -> bool
    ensures { result ≡ ready_by grades.now place }
{
    place.is_some_and(|record| has_sources(grades, record))
}

fn count_graded<G: Copy>(grades: &[Option<G>]) -> u32
    ensures { result ≡ count_by is_some (take 1024 grades.now) }
{
    grades
        .iter()
        .take(usize::from(CELLS))
        .filter(|grade| grade.is_some())
        .count() as u32
}

// How many of the first records are ready. Their number is a parameter, since a proof would write
// the list of 4,096 numbers out.
fn count_ready<G: Copy, H: Heap>(heap: &H, grades: &[Option<G>], records: u16) -> u32
    ensures { let h = H.Heap.meaning heap.now in
        result ≡ count_by (ready_by grades.now) (map (record_at h) (range_with_len 0 records)) }
{
    (0..records)
        .map(|number| heap.record(u32::from(number)))
        .filter(|&place| is_ready(grades, place))
        .count() as u32
}

// The cells that have grades, and the filled records whose sources all have.
pub fn counts<G: Copy, H: Heap>(heap: &H, grades: &[Option<G>]) -> Counts
    ensures settled { result.settled ≡ count_by is_some (take 1024 grades.now) }
    ensures weighed { let h = H.Heap.meaning heap.now in
        result.weighed ≡ count_by (ready_by grades.now) h.records }
{
    Counts {
        settled: count_graded(grades),
        weighed: count_ready(heap, grades, RECORDS),
    }
}
