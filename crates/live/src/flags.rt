// Which cells stay when a heap is swept: a flag for each.
ghost use Rattle.std.specs.Prelude.{◌≡◌};
ghost use Rattle.model.specs.Sweeping.{names_kept};
ghost use Rattle.live.specs.Flagged.{flagged};

use model::heap::CELLS;
use model::record::Record;

// A flag for each cell.
pub type Kept = [bool; CELLS as usize];

// Whether a cell is kept; a number that is no cell's never is.
pub fn is_kept(kept: &Kept, cell: u16) -> bool
    ensures { result ≡ flagged kept.now cell }
{
    kept.get(usize::from(cell)).copied().unwrap_or(false)
}

// Whether every cell that the record names is kept.
pub fn names_kept(kept: &Kept, record: Record) -> bool
    ensures { result ≡ names_kept (flagged kept.now) «record» }
{
    match record {
        Record::Root { target } => is_kept(kept, target),
        Record::Link { source, target, .. } => is_kept(kept, source) && is_kept(kept, target),
        Record::Ephemeron { table, key, value } => {
            is_kept(kept, table) && is_kept(kept, key) && is_kept(kept, value)
        }
    }
}
