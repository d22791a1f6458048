// The best of the offers that wait, kept in a tree so that it is found without a look at all.
// The tree stands on the rows: node 1,024 + c is what waits in the row of cell c. Every lower
// node but node 0 holds the better of what its children hold, nodes 2 i and 2 i + 1. So node 1
// holds the best of all. Node 0 is not used.
// Between two writes the tree is out of order, so what writes it takes the slices, and not the
// queue that keeps the order in its type. A climb is a `while`, as in a heap: a `for` over the
// levels would find each node's number by a shift.
ghost use Rattle.std.specs.Prelude.{◌≡◌, ◌<◌, length, Some};
ghost use Rattle.engine.specs.Working.{propose, seal as sealed};
ghost use Rattle.engine.specs.Waiting.{held, Ranks};

use model::heap::CELLS;
use model::row::{Offer, Row};
use model::scheme::Scheme;
use offers::{better, candidate, improves, overtakes, waiting_row};

// What a node holds, of the tree or below it.
fn node<G: Copy>(rows: &[Option<Row<G>>], tree: &[Option<Offer<G>>], i: u16) -> Option<Offer<G>>
    requires wide { length rows.now ≡ 1024 }
    requires nodes { length tree.now ≡ 1024 }
    requires within { i < 2048 }
    ensures { result ≡ held rows.now tree.now i }
{
    if i < CELLS {
        tree[i as usize]
    } else {
        candidate(i - CELLS, rows[(i - CELLS) as usize])
    }
}

// Makes `offer` to its cell. In the tree it rises as far as it overtakes what is there; above
// that nothing changes.
pub(crate) fn suggest<S: Scheme>(
    scheme: &S,
    rows: &mut [Option<Row<S::Grade>>],
    tree: &mut [Option<Offer<S::Grade>>],
    offer: Offer<S::Grade>,
)
    requires wide { length rows.old ≡ 1024 }
    requires within { offer.cell < 1024 }
    requires ranks { Ranks (S.Scheme.model scheme.now) rows.old tree.old }
    ensures after { let s = S.Scheme.model scheme.now in
        rows.new ≡ propose s offer rows.old }
    ensures ranks { let s = S.Scheme.model scheme.now in
        Ranks s rows.new tree.new }
{
    let cell = offer.cell as usize;
    if !improves(scheme, offer, rows[cell]) {
        return;
    }
    rows[cell] = Some(waiting_row(offer));
    let mut i = (CELLS + offer.cell) / 2;
    while i > 0 && overtakes(scheme, offer, tree[i as usize]) {
        tree[i as usize] = Some(offer);
        i /= 2;
    }
}

// Settles the cell of `offer` in turn `turn`, and finds anew what is best above it.
pub(crate) fn settle<S: Scheme>(
    scheme: &S,
    rows: &mut [Option<Row<S::Grade>>],
    tree: &mut [Option<Offer<S::Grade>>],
    offer: Offer<S::Grade>,
    turn: u16,
)
    requires wide { length rows.old ≡ 1024 }
    requires within { offer.cell < 1024 }
    requires ranks { Ranks (S.Scheme.model scheme.now) rows.old tree.old }
    ensures after { rows.new ≡ sealed offer turn rows.old }
    ensures ranks { let s = S.Scheme.model scheme.now in
        Ranks s rows.new tree.new }
{
    rows[offer.cell as usize] = Some(Row {
        grade: offer.grade,
        holder: offer.number,
        turn,
    });
    let mut i = (CELLS + offer.cell) / 2;
    while i > 0 {
        let left = node(rows, tree, 2 * i);
        let right = node(rows, tree, 2 * i + 1);
        tree[i as usize] = better(scheme, left, right);
        i /= 2;
    }
}
