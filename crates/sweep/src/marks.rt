// Which cells stay: those whose grade is no worse than the limit.
ghost use Rattle.std.specs.Prelude.{◌≡◌, map, length};
ghost use Rattle.model.specs.Sweeping.{within};

use live::flags::Kept;
use model::heap::CELLS;
use model::row::Row;
use model::scheme::{Rank, Scheme};

// Whether a cell with this row stays. One without a row is not reached at all.
fn is_within<S: Scheme>(scheme: &S, limit: S::Grade, row: Option<Row<S::Grade>>) -> bool
    ensures { result ≡ within (S.Scheme.model scheme.now) limit row }
{
    let Some(row) = row else {
        return false;
    };
    matches!(scheme.rank(row.grade, limit), Rank::Before | Rank::Same)
}

// A flag for each cell: whether it stays. The rows are a slice, since an array of them would have to
// be shown to fit into memory, whatever a grade is; and they are gone through by a loop, since of
// an array made by from_fn only the calls that made it are known.
pub(crate) fn mark<S: Scheme>(scheme: &S, limit: S::Grade, rows: &[Option<Row<S::Grade>>]) -> Kept
    requires { length rows.now ≡ 1024 }
    ensures { let s = S.Scheme.model scheme.now in
        result ≡ map (within s limit) rows.now }
{
    let mut kept = [false; CELLS as usize];
    for (cell, row) in rows.iter().enumerate() {
        kept[cell] = is_within(scheme, limit, *row);
    }
    kept
}
