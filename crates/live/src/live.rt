ghost use Rattle.model.specs.Meaning.{SizesFit, NamesFilled};

use crate::table::Table;
use model::heap::{CELLS, RECORDS};
use model::record::Record;

pub mod answers;
mod arguments;
mod calls;
mod retain;

// How many places the table of the cells has, and that of the records, as a table's parameter
// takes them: it takes no cast.
const CELL_PLACES: usize = CELLS as usize;

const RECORD_PLACES: usize = RECORDS as usize;

// A heap that changes by calls: the size of each filled cell, and what stands in each filled
// record. What the ghost fields say holds after every call.
#[derive(Drop)]
pub struct LiveHeap {
    cells: Table<u32, CELL_PLACES>,
    records: Table<Record, RECORD_PLACES>,
    ghost sizes: { SizesFit cells.slots },
    ghost names: { NamesFilled cells.slots records.slots },
}
