// The offers that wait, and the rows in which they do, between the steps of a grading.
ghost use Rattle.std.specs.Prelude.{◌≡◌, ◌<◌, length, IfSome, None, slice_index_or};
ghost use Rattle.engine.specs.Working.{chosen, propose, seal as sealed, settled_rows};
ghost use Rattle.engine.specs.Waiting.{Ranks, Ranks-prop};

use crate::tree;
use model::row::{Offer, Row};
use model::scheme::Scheme;
use offers::settled_only;

// The rows of a grading under a scheme, and the tree over them. Both are slices: that an array of
// 1,024 grades fits into memory would have to be required wherever it is made, whatever a grade is.
#[derive(Drop)]
pub(crate) struct Queue<'a, S: Scheme> {
    pub(crate) scheme: &'a S,
    pub(crate) rows: &'a mut [Option<Row<S::Grade>>],
    pub(crate) tree: &'a mut [Option<Offer<S::Grade>>],
    ghost wide: { length rows.now ≡ 1024 },
    ghost ranks: { Ranks (S.Scheme.model scheme.now) rows.now tree.now } by { Ranks-prop S.Grade.code (S.Scheme.model scheme.now) rows.now tree.now },
}

impl<S: Scheme> Queue<'_, S> {
    ghost use Rattle.engine.specs.Queues.{SameQueue};

    // The best offer of all.
    pub(crate) fn best(&self) -> Option<Offer<S::Grade>>
        ensures best { result ≡ chosen (S.Scheme.model self.now.scheme.now) self.now.rows.now }
        ensures within { IfSome result (λ o. o.cell < 1024) }
    {
        self.tree[1]
    }

    // The row of a cell, if that is settled.
    pub(crate) fn settled(&self, cell: u16) -> Option<Row<S::Grade>>
        requires { cell < 1024 }
        ensures { result ≡ slice_index_or (settled_rows self.now.rows.now) cell None }
    {
        settled_only(self.rows[cell as usize])
    }

    // Makes `offer` to its cell.
    pub(crate) fn suggest(&mut self, offer: Offer<S::Grade>)
        requires { offer.cell < 1024 }
        ensures after { let s = S.Scheme.model self.old.scheme.now in
            self.new.rows.now ≡ propose s offer self.old.rows.now }
        ensures same { SameQueue self.old self.new }
    {
        tree::suggest(self.scheme, self.rows, self.tree, offer);
    }

    // Settles the cell of `offer` in turn `turn`.
    pub(crate) fn settle(&mut self, offer: Offer<S::Grade>, turn: u16)
        requires { offer.cell < 1024 }
        ensures after { self.new.rows.now ≡ sealed offer turn self.old.rows.now }
        ensures same { SameQueue self.old self.new }
    {
        tree::settle(self.scheme, self.rows, self.tree, offer, turn);
    }
}
