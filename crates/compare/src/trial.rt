// A heap under a scheme, and the room in which the collector and the naive program answer.
use live::live::LiveHeap;
use model::heap::CELLS;
use model::row::Row;
use model::scheme::Scheme;

// A place for each cell.
pub type Grades<G> = [Option<G>; CELLS as usize];

pub type Rows<G> = [Option<Row<G>>; CELLS as usize];

#[derive(Drop)]
pub struct Trial<'a, S: Scheme> {
    pub scheme: &'a S,
    pub heap: &'a LiveHeap,
    // where the collector writes what it finds
    pub rows: Rows<S::Grade>,
    // the naive grades
    pub grades: Grades<S::Grade>,
}

impl<'a, S: Scheme> Trial<'a, S> {
    pub fn new(scheme: &'a S, heap: &'a LiveHeap) -> Self {
        Trial {
            scheme,
            heap,
            rows: [None; CELLS as usize],
            grades: [None; CELLS as usize],
        }
    }
}
