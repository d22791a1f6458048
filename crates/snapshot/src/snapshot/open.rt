ghost use Rattle.std.specs.Prelude.{◌≡◌, IfOk};
ghost use Rattle.std.specs.Result.{result_err};
ghost use Rattle.model.specs.Calls.{empty_heap};
ghost use Rattle.model.specs.Faults.{answer, left};
ghost use Rattle.snapshot.specs.Alone.{Alone};
ghost use Rattle.snapshot.specs.Laid.{file_fault, laid_down};
ghost use Rattle.snapshot.specs.Snapshot.{meaning_of};

use super::Snapshot;
use crate::entries::{Cells, Ephemerons, Links, Roots};
use crate::header::Layout;
use crate::sorted::SortedSection;
use model::fault::Fault;

impl<'a> Snapshot<'a> {
    // A snapshot of nothing.
    pub fn empty() -> Self
        ensures { meaning_of result ≡ empty_heap }
    {
        Snapshot {
            cells: SortedSection { bytes: b"" },
            roots: SortedSection { bytes: b"" },
            links: SortedSection { bytes: b"" },
            ephemerons: SortedSection { bytes: b"" },
        }
    }

    // The heap of a file, or its first fault.
    fn read(bytes: &'a [u8]) -> Result<Self, Fault>
        ensures fault { result_err result ≡ file_fault bytes.now }
        ensures shown { IfOk result (λ s. meaning_of s ≡ laid_down bytes.now) }
    {
        let layout = Layout::of(bytes)?;
        let cells = layout.cells.section(bytes).judge(&Cells)?;
        let roots = layout.roots.section(bytes).judge(&Roots { cells: &cells })?;
        let links = layout.links.section(bytes).judge(&Links {
            cells: &cells,
            roots: &roots,
        })?;
        let ephemerons = layout.ephemerons.section(bytes).judge(&Ephemerons {
            cells: &cells,
            roots: &roots,
            links: &links,
        })?;
        Ok(Snapshot {
            cells,
            roots,
            links,
            ephemerons,
        })
    }

    // Shows the heap of a file. One that is refused leaves what was shown before. No
    // other file shows the same heap.
    pub fn open(&mut self, bytes: &'a [u8]) -> Result<(), Fault>
        ensures answers { result ≡ answer (file_fault bytes.now) tt }
        ensures leaves { meaning_of self.new ≡
            left (file_fault bytes.now) (laid_down bytes.now)
            (meaning_of self.old) }
        ensures alone { Alone bytes.now }
    {
        *self = Snapshot::read(bytes)?;
        Ok(())
    }
}
