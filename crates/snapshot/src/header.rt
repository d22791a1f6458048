// The head of a file: where its sections lie.
ghost use Rattle.std.specs.Prelude.{◌≡◌, ◌+◌, ◌≤◌, length};
ghost use Rattle.model.specs.Faults.{answer};
ghost use Rattle.snapshot.specs.Header.{pair_at, pairs_of, rows_of, layout_of, end, section};
ghost use Rattle.snapshot.specs.Header.{places_fault, lengths_fault, pairs_fault, header_fault};

use crate::entries::{CELL, EPHEMERON, LINK, ROOT};
use crate::numbers::u32_at;
use crate::section::Section;
use model::fault::{Cause, Fault};

// The lead bytes and the pairs, which the first section follows.
const HEAD: usize = 36;

const LONGEST: usize = 65536;

// The bytes where the pairs begin.
const CELLS_PAIR: u32 = 4;

const ROOTS_PAIR: u32 = 12;

const LINKS_PAIR: u32 = 20;

const EPHEMERONS_PAIR: u32 = 28;

// Where a section starts in the file, and how many bytes it has.
#[derive(Clone, Copy)]
pub struct Pair {
    pub offset: u32,
    pub size: u32,
}

#[derive(Clone, Copy)]
pub struct Layout {
    pub cells: Pair,
    pub roots: Pair,
    pub links: Pair,
    pub ephemerons: Pair,
}

impl Pair {
    fn at(bytes: &[u8], at: usize) -> Self
        requires { at + 8 ≤ length bytes.now }
        ensures { result ≡ pair_at bytes.now at }
    {
        Pair {
            offset: u32_at(bytes, at),
            size: u32_at(bytes, at + 4),
        }
    }

    // The sum of two numbers of 32 bits, which may not fit 32.
    fn end(self) -> usize
        ensures { result ≡ end self }
    {
        self.offset as usize + self.size as usize
    }

    // The section of a file, whose entries have WIDTH bytes.
    pub(crate) fn section<const WIDTH: usize>(self, bytes: &[u8]) -> Section<WIDTH>
        requires numbered { 2 ≤ WIDTH }
        requires narrow { WIDTH ≤ 8 }
        requires short { length bytes.now ≤ 65536 }
        requires within { end self ≤ length bytes.now }
        ensures start { result.start ≡ self.offset }
        ensures bytes { result.bytes.now ≡ section bytes.now self }
    {
        Section {
            start: self.offset,
            bytes: &bytes[self.offset as usize..self.end()],
        }
    }
}

impl Layout {
    // The pairs in what follows the lead bytes.
    fn pairs(rest: &[u8]) -> Self
        requires { 32 ≤ length rest.now }
        ensures { result ≡ pairs_of rest.now }
    {
        Layout {
            cells: Pair::at(rest, 0),
            roots: Pair::at(rest, 8),
            links: Pair::at(rest, 16),
            ephemerons: Pair::at(rest, 24),
        }
    }

    // The pairs, each with the byte where it begins and with how many bytes its
    // entries have.
    fn rows(self) -> [(Pair, u32, usize); 4]
        ensures { result ≡ rows_of self }
    {
        [
            (self.cells, CELLS_PAIR, CELL),
            (self.roots, ROOTS_PAIR, ROOT),
            (self.links, LINKS_PAIR, LINK),
            (self.ephemerons, EPHEMERONS_PAIR, EPHEMERON),
        ]
    }

    // The sections follow one another up to the file's end.
    fn check_places(self, len: usize) -> Result<(), Fault>
        ensures { result ≡ answer (places_fault self len) tt }
    {
        let cause = Cause::SectionPlace;
        let mut end = HEAD;
        for &(pair, place, _) in &self.rows() {
            if pair.offset as usize != end {
                return Err(cause.at(place));
            }
            end = pair.end();
        }
        if end != len {
            return Err(cause.at(EPHEMERONS_PAIR));
        }
        Ok(())
    }

    // Each section holds whole entries.
    fn check_lengths(self) -> Result<(), Fault>
        ensures { result ≡ answer (lengths_fault self) tt }
    {
        for &(pair, place, width) in &self.rows() {
            if pair.size as usize % width != 0 {
                return Err(Cause::SectionLength.at(place));
            }
        }
        Ok(())
    }

    // All places come before any length.
    fn checked(self, len: usize) -> Result<Self, Fault>
        ensures { result ≡ answer (pairs_fault self len) self }
    {
        self.check_places(len)?;
        self.check_lengths()?;
        Ok(self)
    }

    // The layout of a file, or the first fault of its head.
    pub fn of(bytes: &[u8]) -> Result<Self, Fault>
        ensures { result ≡ answer (header_fault bytes.now) (layout_of bytes.now) }
    {
        if !(HEAD..=LONGEST).contains(&bytes.len()) {
            return Err(Cause::FileLength.at(0));
        }
        let [69, 72, 1, 4, rest @ ..] = bytes else {
            return Err(Cause::LeadBytes.at(0));
        };
        Layout::pairs(rest).checked(bytes.len())
    }
}
