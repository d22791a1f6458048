ghost use Rattle.std.specs.Prelude.{◌≡◌};
ghost use Rattle.model.specs.Meaning.{Meaning, cell_at, record_at, WellFormed};

use crate::record::Record;

// How many cells a heap has, and how many records.
pub const CELLS: u16 = 1024;

pub const RECORDS: u16 = 4096;

// The largest size of a cell, in bytes.
pub const LARGEST_SIZE: u32 = 1048576;

// Anything that can be asked which cell and which record it holds at a number.
pub trait Heap {
    // the cells and the records that the two questions are answered from
    ghost meaning: { Self → Meaning };

    // in every heap sizes are in range and filled records name filled cells
    ghost formed: { (h : Self) → WellFormed (meaning h) };

    // The size of cell `n`; nothing where it is empty or `n` too large.
    fn cell(&self, n: u32) -> Option<u32>
        ensures { result ≡ cell_at (meaning self.now) n };

    // Record `n`; nothing where it is empty or `n` too large.
    fn record(&self, n: u32) -> Option<Record>
        ensures { result ≡ record_at (meaning self.now) n };
}
