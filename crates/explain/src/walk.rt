// The walk down the turns, from a cell to the roots that it hangs on.
ghost use Rattle.std.specs.Prelude.{◌≡◌, ◌<◌};
ghost use Rattle.model.specs.Meaning.{record_at};
ghost use Rattle.model.specs.Explaining.{sources_of, marked, steps_of};

use crate::order::Graded;
use arrayvec::ArrayVec;
use model::heap::{CELLS, Heap};
use model::record::Record;

// As many steps as a cell can have: one for each cell.
const STEPS: usize = CELLS as usize;

// Marks the cells that record `number` draws on.
fn mark_sources<H: Heap>(heap: &H, number: u16, marks: &mut [bool; CELLS as usize])
    ensures { let h = H.Heap.meaning heap.now in
        marks.new ≡ marked (sources_of (record_at h number)) marks.old }
{
    let Some(record) = heap.record(u32::from(number)) else {
        return;
    };
    match record {
        Record::Root { .. } => {}
        Record::Link { source, .. } => marks[source as usize] = true,
        Record::Ephemeron { table, key, .. } => {
            marks[table as usize] = true;
            marks[key as usize] = true;
        }
    }
}

// The steps of `cell`, which was settled in this turn: from the last turn down, each cell that is
// concerned adds its holder, and the holder's sources are concerned as well.
pub(crate) fn walk<G: Copy, H: Heap>(
    heap: &H,
    graded: &Graded<'_, G>,
    cell: u16,
    turn: u16,
) -> ArrayVec<u16, STEPS>
    requires cell { cell < 1024 }
    requires turn { turn < 1024 }
    ensures { let h = H.Heap.meaning heap.now in
        result.items ≡ steps_of h graded.now.rows.now cell turn }
{
    let order = graded.by_turn();
    let mut marks = [false; CELLS as usize];
    marks[cell as usize] = true;
    let mut steps = ArrayVec::new();
    // By place: what is still to be explained are the places below it.
    for place in (0..turn + 1).rev() {
        let cell = order[place as usize];
        if marks[cell as usize] {
            let number = graded.holder(cell);
            mark_sources(heap, number, &mut marks);
            steps.push(number);
        }
    }
    steps.reverse();
    steps
}
