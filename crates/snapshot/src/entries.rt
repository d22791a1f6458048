// The four kinds of entries.
ghost use Rattle.std.specs.Prelude.{◌&&◌, true, not};
ghost use Rattle.snapshot.specs.Numbers.{u16_at, u32_at};
ghost use Rattle.snapshot.specs.Sections.{has};
ghost use Rattle.snapshot.specs.Entries.{cell_fits, root_fits, link_fits, ephemeron_fits};
ghost use Rattle.snapshot.specs.Entries.{cells_fault, roots_fault, links_fault, ephemerons_fault};
ghost use Rattle.snapshot.specs.Judged.{cells_judged, roots_judged, links_judged, ephemerons_judged};

use crate::kind::Kind;
use crate::numbers::{u16_at, u32_at};
use crate::sorted::SortedSection;
use model::heap::{CELLS, LARGEST_SIZE, RECORDS};
use model::record::Strength;

// How many bytes an entry has, by its kind.
pub(crate) const CELL: usize = 8;

pub(crate) const ROOT: usize = 4;

pub(crate) const LINK: usize = 8;

pub(crate) const EPHEMERON: usize = 8;

// A cell's number, a field that is 0, and the size.
#[derive(Clone, Copy)]
pub(crate) struct Cells;

impl Kind<CELL> for Cells {
    ghost fits = { λ _ e. cell_fits (u16_at e 0) (u16_at e 2) (u32_at e 4) };

    ghost is_new = { λ _ _. true };

    ghost names_cells = { λ _ _. true };

    ghost fault = { λ _ s i. cells_fault s i };

    fn fits(&self, cell: &[u8; CELL]) -> bool {
        u16_at(cell, 0) < CELLS
            && u16_at(cell, 2) == 0
            && (1..=LARGEST_SIZE).contains(&u32_at(cell, 4))
    }

    fn is_new(&self, _cell: &[u8; CELL]) -> bool {
        true
    }

    fn names_cells(&self, _cell: &[u8; CELL]) -> bool {
        true
    }

    ghost judges = { λ _ s i. cells_judged s i };
}

// A root's number and its target.
#[derive(Clone, Copy)]
pub(crate) struct Roots<'a> {
    pub(crate) cells: &'a SortedSection<'a, CELL>,
}

impl<'a> Kind<ROOT> for Roots<'a> {
    ghost fits = { λ _ e. root_fits (u16_at e 0) (u16_at e 2) };

    ghost is_new = { λ _ _. true };

    ghost names_cells = { λ k e. has 8 k.cells.now.bytes.now (u16_at e 2) };

    ghost fault = { λ k s i. roots_fault k.cells.now.bytes.now s i };

    fn fits(&self, root: &[u8; ROOT]) -> bool {
        u16_at(root, 0) < RECORDS && u16_at(root, 2) < CELLS
    }

    fn is_new(&self, _root: &[u8; ROOT]) -> bool {
        true
    }

    fn names_cells(&self, root: &[u8; ROOT]) -> bool {
        self.cells.contains(u16_at(root, 2))
    }

    ghost judges = { λ k s i. roots_judged k.cells.now.bytes.now s i };
}

// A link's number, source, target and strength.
#[derive(Clone, Copy)]
pub(crate) struct Links<'a> {
    pub(crate) cells: &'a SortedSection<'a, CELL>,
    pub(crate) roots: &'a SortedSection<'a, ROOT>,
}

impl<'a> Kind<LINK> for Links<'a> {
    ghost fits = { λ _ e. link_fits (u16_at e 0) (u16_at e 2) (u16_at e 4) (u16_at e 6) };

    ghost is_new = { λ k e. not (has 4 k.roots.now.bytes.now (u16_at e 0)) };

    ghost names_cells = { λ k e. has 8 k.cells.now.bytes.now (u16_at e 2) &&
        has 8 k.cells.now.bytes.now (u16_at e 4) };

    ghost fault = { λ k s i. links_fault k.cells.now.bytes.now k.roots.now.bytes.now s i };

    fn fits(&self, link: &[u8; LINK]) -> bool {
        u16_at(link, 0) < RECORDS
            && u16_at(link, 2) < CELLS
            && u16_at(link, 4) < CELLS
            && Strength::try_from(u32::from(u16_at(link, 6))).is_ok()
    }

    fn is_new(&self, link: &[u8; LINK]) -> bool {
        !self.roots.contains(u16_at(link, 0))
    }

    fn names_cells(&self, link: &[u8; LINK]) -> bool {
        self.cells.contains(u16_at(link, 2)) && self.cells.contains(u16_at(link, 4))
    }

    ghost judges = { λ k s i. links_judged k.cells.now.bytes.now k.roots.now.bytes.now s i };
}

// An ephemeron's number, table, key and value.
#[derive(Clone, Copy)]
pub(crate) struct Ephemerons<'a> {
    pub(crate) cells: &'a SortedSection<'a, CELL>,
    pub(crate) roots: &'a SortedSection<'a, ROOT>,
    pub(crate) links: &'a SortedSection<'a, LINK>,
}

impl<'a> Kind<EPHEMERON> for Ephemerons<'a> {
    ghost fits = { λ _ e. ephemeron_fits (u16_at e 0) (u16_at e 2) (u16_at e 4) (u16_at e 6) };

    ghost is_new = { λ k e. not (has 4 k.roots.now.bytes.now (u16_at e 0)) &&
        not (has 8 k.links.now.bytes.now (u16_at e 0)) };

    ghost names_cells = { λ k e. has 8 k.cells.now.bytes.now (u16_at e 2) &&
        (has 8 k.cells.now.bytes.now (u16_at e 4) && has 8 k.cells.now.bytes.now (u16_at e 6)) };

    ghost fault = { λ k s i. ephemerons_fault k.cells.now.bytes.now k.roots.now.bytes.now k.links.now.bytes.now s i };

    fn fits(&self, ephemeron: &[u8; EPHEMERON]) -> bool {
        u16_at(ephemeron, 0) < RECORDS
            && u16_at(ephemeron, 2) < CELLS
            && u16_at(ephemeron, 4) < CELLS
            && u16_at(ephemeron, 6) < CELLS
    }

    fn is_new(&self, ephemeron: &[u8; EPHEMERON]) -> bool {
        let number = u16_at(ephemeron, 0);
        !self.roots.contains(number) && !self.links.contains(number)
    }

    fn names_cells(&self, ephemeron: &[u8; EPHEMERON]) -> bool {
        self.cells.contains(u16_at(ephemeron, 2))
            && self.cells.contains(u16_at(ephemeron, 4))
            && self.cells.contains(u16_at(ephemeron, 6))
    }

    ghost judges = { λ k s i. ephemerons_judged k.cells.now.bytes.now k.roots.now.bytes.now k.links.now.bytes.now s i };
}
