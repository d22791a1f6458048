// The settled cells in order of turn.
ghost use Rattle.std.specs.Prelude.{◌≡◌, ◌<◌, length};
ghost use Rattle.model.specs.Explaining.{cells_by_turn};
ghost use Rattle.laws.specs.Order.{Timely};
ghost use Rattle.explain.specs.Walking.{Cells, holder_at};

use model::heap::CELLS;
use model::row::Row;

// The rows that grading left: one for each cell, and every turn is below 1,024.
#[derive(Drop)]
pub(crate) struct Graded<'a, G> {
    pub(crate) rows: &'a [Option<Row<G>>],
    ghost wide: { length rows.now ≡ 1024 },
    ghost timely: { Timely rows.now },
}

impl<'a, G: Copy> Graded<'a, G> {
    // The record that holds `cell`.
    pub(crate) fn holder(&self, cell: u16) -> u16
        requires { cell < 1024 }
        ensures { result ≡ holder_at self.now.rows.now cell }
    {
        self.rows[cell as usize].map_or(0, |row| row.holder)
    }

    // The cell of each turn.
    pub(crate) fn by_turn(&self) -> [u16; CELLS as usize]
        ensures is { result ≡ cells_by_turn self.now.rows.now }
        ensures cells { Cells result }
    {
        let mut order = [0; CELLS as usize];
        for (cell, row) in self.rows.iter().enumerate() {
            if let Some(row) = row {
                order[row.turn as usize] = cell as u16;
            }
        }
        order
    }
}
