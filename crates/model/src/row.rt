// What grading finds of a reached cell: its grade, the record that gives it,
// and how many cells were settled before it.
#[derive(Clone, Copy, PartialEq, Eq, Debug)]
pub struct Row<G> {
    pub grade: G,
    pub holder: u16,
    pub turn: u16,
}

// The grade that record `number` offers to the cell `cell`.
#[derive(Clone, Copy)]
pub struct Offer<G> {
    pub grade: G,
    pub cell: u16,
    pub number: u16,
}

// What grading counts: the cells that it settled, and the filled records whose
// sources are all settled at the end.
#[derive(Clone, Copy, PartialEq, Eq, Debug)]
pub struct Counts {
    pub settled: u32,
    pub weighed: u32,
}

// Why a cell survives: its grade, and how many records hold it up.
#[derive(Clone, Copy, PartialEq, Eq, Debug)]
pub struct Why<G> {
    pub grade: G,
    pub count: u32,
}

// What a sweep took away: how many cells it dropped and how many records it cleared.
#[derive(Clone, Copy, PartialEq, Eq, Debug)]
pub struct Swept {
    pub cells: u32,
    pub records: u32,
}
