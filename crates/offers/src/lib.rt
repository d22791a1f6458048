// Which of two offers is taken first, and offers as they wait in the rows while grading goes
// on. An empty row belongs to a cell that has no offer yet, a row with a turn below 1,024 to a
// settled cell, and any other row holds the best offer so far to a cell that waits.
#![tactic(auto)]

ghost use Rattle.std.specs.Prelude.{◌≡◌, nat_lt};
ghost use Rattle.model.specs.Settling.{earlier, better_of};
ghost use Rattle.offers.specs.Offers.{settled_row, held_offer, waiting, row_waiting, overtaken, improved};

use model::heap::CELLS;
use model::row::{Offer, Row};
use model::scheme::{Rank, Scheme};

// The turn of a row that waits. Offers wait in the rows that are lent for the result, so that no
// more room is needed for them, and a number in a row says which of the two it holds.
pub const WAITS: u16 = u16::MAX;

// Whether `a` is taken before `b`: by grade, then by cell, then by record.
pub fn beats<S: Scheme>(scheme: &S, a: Offer<S::Grade>, b: Offer<S::Grade>) -> bool
    ensures { let s = S.Scheme.model scheme.now in
        result ≡ earlier (s.rank a.grade b.grade) a b }
{
    match scheme.rank(a.grade, b.grade) {
        Rank::Before => true,
        Rank::After => false,
        Rank::Same => (a.cell, a.number) < (b.cell, b.number),
    }
}

// The one of two offers that is taken first, where there are two.
pub fn better<S: Scheme>(
    scheme: &S,
    a: Option<Offer<S::Grade>>,
    b: Option<Offer<S::Grade>>,
) -> Option<Offer<S::Grade>>
    ensures { result ≡ better_of (S.Scheme.model scheme.now) a b }
{
    match (a, b) {
        (Some(old), Some(new)) => if beats(scheme, new, old) { b } else { a },
        (None, _) => b,
        _ => a,
    }
}

// Whether a row is that of a settled cell, whose turn is below the number of cells.
fn is_settled<G>(row: &Row<G>) -> bool
    ensures { result ≡ nat_lt row.now.turn 1024 }
{
    row.turn < CELLS
}

// What a row that waits holds: an offer to its cell.
fn row_offer<G: Copy>(cell: u16, row: Row<G>) -> Offer<G>
    ensures { result ≡ held_offer cell row }
{
    Offer {
        grade: row.grade,
        cell,
        number: row.holder,
    }
}

// The row of a cell at which `offer` waits.
pub fn waiting_row<G: Copy>(offer: Offer<G>) -> Row<G>
    ensures { result ≡ row_waiting offer }
{
    Row {
        grade: offer.grade,
        holder: offer.number,
        turn: WAITS,
    }
}

// The offer that waits at `cell`.
pub fn candidate<G: Copy>(cell: u16, row: Option<Row<G>>) -> Option<Offer<G>>
    ensures { result ≡ waiting cell row }
{
    row.filter(|it| !is_settled(it))
        .map(|it| row_offer(cell, it))
}

// Whether `offer` is to wait in the row of its cell: a settled row stands, and of two offers
// the better one waits.
pub fn improves<S: Scheme>(scheme: &S, offer: Offer<S::Grade>, row: Option<Row<S::Grade>>) -> bool
    ensures { result ≡ improved (S.Scheme.model scheme.now) offer row }
{
    row.is_none_or(|old| !is_settled(&old) && beats(scheme, offer, row_offer(offer.cell, old)))
}

// The row, unless it waits.
pub fn settled_only<G: Copy>(row: Option<Row<G>>) -> Option<Row<G>>
    ensures { result ≡ settled_row row }
{
    row.filter(is_settled)
}

// Whether `offer` is taken before `old`, if that is anything.
pub fn overtakes<S: Scheme>(
    scheme: &S,
    offer: Offer<S::Grade>,
    old: Option<Offer<S::Grade>>,
) -> bool
    ensures { result ≡ overtaken (S.Scheme.model scheme.now) offer old }
{
    old.is_none_or(|old| beats(scheme, offer, old))
}
