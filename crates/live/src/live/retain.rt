ghost use Rattle.std.specs.Prelude.{◌≡◌};
ghost use Rattle.model.specs.Sweeping.{emptied};
ghost use Rattle.live.specs.Flagged.{flagged};
ghost use Rattle.live.specs.Live.{meaning_of};

use super::LiveHeap;
use crate::flags::{Kept, names_kept};

impl LiveHeap {
    // Empties every cell that is not kept, and every record that names one.
    pub fn retain(&mut self, kept: &Kept)
        ensures { meaning_of self.new ≡
            emptied (flagged kept.now) (meaning_of self.old) }
    {
        self.records.retain(|_, record| names_kept(kept, record));
        self.cells.retain(|cell, _| kept[cell]);
    }
}
