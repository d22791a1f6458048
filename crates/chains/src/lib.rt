// Which records draw on which cell. Each record has two places: one for a link's source or an
// ephemeron's table, and one for an ephemeron's key. A chain leads through the places of each
// cell, from the lowest up, so that the records that draw on a cell are found without a look
// at the others.
#![tactic(auto)]

ghost use Rattle.std.specs.Prelude.{◌≡◌, ℕ, ◌+◌, ◌*◌, ◌<◌, replicate, Some, slice_index_or};
ghost use Rattle.chains.specs.Places.{first_source, second_source, firsts_with, nexts_with};
ghost use Rattle.chains.specs.Places.{Linked, Chained, place_if};

use model::heap::{CELLS, Heap, RECORDS};
use model::record::Record;

// How many places the records have; no place has this number, so it ends a chain.
const PLACES: u16 = 2 * RECORDS;

// The lowest place of each cell, and after each place the next of its cell: 18 KB in all, half
// of what they would take with an option at each place.
#[derive(Drop)]
pub struct Chains {
    first: [u16; CELLS as usize],
    next: [u16; PLACES as usize],
}

// The cell at the first place of a record.
fn first_source(record: Option<Record>) -> Option<u16>
    ensures { result ≡ first_source «record» }
{
    match record? {
        Record::Root { .. } => None,
        Record::Link { source, .. } => Some(source),
        Record::Ephemeron { table, .. } => Some(table),
    }
}

// The cell at the second place. A key that is its own table has its place there already.
fn second_source(record: Option<Record>) -> Option<u16>
    ensures { result ≡ second_source «record» }
{
    match record? {
        Record::Ephemeron { table, key, .. } if key != table => Some(key),
        _ => None,
    }
}

impl Chains {
    // Chains with no place.
    fn new() -> Self
        ensures firsts { result.first ≡ replicate 1024 8192 }
        ensures nexts { result.next ≡ replicate 8192 8192 }
    {
        Chains {
            first: [PLACES; CELLS as usize],
            next: [PLACES; PLACES as usize],
        }
    }

    // Puts a place at the front of its cell's chain.
    fn put(&mut self, place: u16, source: Option<u16>)
        requires place_exists { place < 8192 }
        requires cell_exists { (c : ℕ) → source ≡ Some c → c < 1024 }
        ensures firsts { self.new.first ≡ firsts_with place source self.old.first }
        ensures nexts { let was = self.old in
            self.new.next ≡ nexts_with place source was.first was.next }
    {
        if let Some(cell) = source {
            self.next[place as usize] = self.first[cell as usize];
            self.first[cell as usize] = place;
        }
    }

    // Puts both places of a record at the front of their chains.
    fn add<H: Heap>(&mut self, heap: &H, number: u16)
        requires record_exists { number < 4096 }
        requires linked_above { Linked (H.Heap.meaning heap.now) (2 * number + 2) self.old.first self.old.next }
        ensures { let h = H.Heap.meaning heap.now in
            let is = self.new in
            Linked h (2 * number) is.first is.next }
    {
        let record = heap.record(u32::from(number));
        self.put(2 * number + 1, second_source(record));
        self.put(2 * number, first_source(record));
    }

    // The chains of a heap: each record is asked for once, from the last to the first.
    pub fn of<H: Heap>(heap: &H) -> Self
        ensures { Chained (H.Heap.meaning heap.now) result }
    {
        let mut chains = Chains::new();
        for number in (0..RECORDS).rev() {
            chains.add(heap, number);
        }
        chains
    }

    // The lowest place of a cell.
    pub fn first_of(&self, source: u16) -> Option<u16>
        ensures { result ≡ place_if (slice_index_or self.now.first source 8192) }
    {
        place_at(&self.first, source)
    }

    // The next place of the cell that place `from` belongs to.
    pub fn after(&self, from: u16) -> Option<u16>
        ensures { result ≡ place_if (slice_index_or self.now.next from 8192) }
    {
        place_at(&self.next, from)
    }
}

// What a chain has at an index: a place, unless it ends there.
fn place_at(chain: &[u16], i: u16) -> Option<u16>
    ensures { result ≡ place_if (slice_index_or chain.now i 8192) }
{
    chain
        .get(i as usize)
        .copied()
        .filter(|place| *place < PLACES)
}
