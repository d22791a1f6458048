ghost use Rattle.model.specs.Meaning.{SizesFit, NamesFilled};
ghost use Rattle.snapshot.specs.Laid.{cell_list, record_list};

use crate::entries::{CELL, EPHEMERON, LINK, ROOT};
use crate::sorted::SortedSection;

pub mod answers;
mod open;

// A saved heap, read where it lies in the caller's bytes: the four sections of a
// file that was found without fault.
#[derive(Drop)]
pub struct Snapshot<'a> {
    cells: SortedSection<'a, CELL>,
    roots: SortedSection<'a, ROOT>,
    links: SortedSection<'a, LINK>,
    ephemerons: SortedSection<'a, EPHEMERON>,
    ghost sizes: { SizesFit (cell_list cells.bytes.now) },
    ghost names: { NamesFilled (cell_list cells.bytes.now)
        (record_list roots.bytes.now links.bytes.now ephemerons.bytes.now) },
}
