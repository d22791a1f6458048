// What the calls ask of one argument. Each function gives the argument in the
// type that the heap stores it in, or the fault at its place.
ghost use Rattle.std.specs.Prelude.{◌≡◌, nat_lt};
ghost use Rattle.model.specs.Faults.{answer, fault, unless};
ghost use Rattle.model.specs.Calls.{cell_fault, filled_fault, empty_fault, size_fault};
ghost use Rattle.model.specs.Calls.{record_fault, free_fault, held_fault, strength_fault};
ghost use Rattle.model.specs.Strengths.{strength_of};
ghost use Rattle.live.specs.Live.{meaning_of};

use super::LiveHeap;
use model::fault::{Cause, Fault};
use model::heap::{CELLS, LARGEST_SIZE, RECORDS};
use model::record::Strength;

// A fault where the test of an argument fails.
fn judge(passes: bool, cause: Cause, place: u32) -> Result<(), Fault>
    ensures { result ≡ answer (unless passes (fault cause place)) tt }
{
    if passes { Ok(()) } else { Err(cause.at(place)) }
}

// A number below `end`.
fn number_below(end: u16, n: u32, cause: Cause, place: u32) -> Result<u16, Fault>
    ensures { result ≡ answer (unless (nat_lt n end) (fault cause place)) n }
{
    judge(n < u32::from(end), cause, place)?;
    Ok(n as u16)
}

fn cell_number(n: u32, place: u32) -> Result<u16, Fault>
    ensures { result ≡ answer (cell_fault n place) n }
{
    number_below(CELLS, n, Cause::CellNumber, place)
}

fn record_number(n: u32, place: u32) -> Result<u16, Fault>
    ensures { result ≡ answer (record_fault n place) n }
{
    number_below(RECORDS, n, Cause::RecordNumber, place)
}

pub(super) fn cell_size(n: u32, place: u32) -> Result<u32, Fault>
    ensures { result ≡ answer (size_fault n place) n }
{
    judge((1..=LARGEST_SIZE).contains(&n), Cause::CellSize, place)?;
    Ok(n)
}

pub(super) fn link_strength(n: u32, place: u32) -> Result<Strength, Fault>
    ensures { result ≡ answer (strength_fault n place) (strength_of n) }
{
    Strength::try_from(n).map_err(|_| Cause::StrengthNumber.at(place))
}

// Four of a kind, as the table that is asked, the answer that is wanted and the cause differ each time.
impl LiveHeap {
    // The number of an empty cell.
    pub(super) fn empty_cell(&self, n: u32, place: u32) -> Result<u16, Fault>
        ensures { result ≡ answer (empty_fault (meaning_of self.now) n place) n }
    {
        let cell = cell_number(n, place)?;
        judge(self.cells.get(n).is_none(), Cause::CellFilled, place)?;
        Ok(cell)
    }

    // The number of a filled cell.
    pub(super) fn filled_cell(&self, n: u32, place: u32) -> Result<u16, Fault>
        ensures { result ≡ answer (filled_fault (meaning_of self.now) n place) n }
    {
        let cell = cell_number(n, place)?;
        judge(self.cells.get(n).is_some(), Cause::CellEmpty, place)?;
        Ok(cell)
    }

    // The number of an empty record.
    pub(super) fn free_record(&self, n: u32, place: u32) -> Result<u16, Fault>
        ensures { result ≡ answer (free_fault (meaning_of self.now) n place) n }
    {
        let record = record_number(n, place)?;
        judge(self.records.get(n).is_none(), Cause::RecordFilled, place)?;
        Ok(record)
    }

    // The number of a filled record.
    pub(super) fn held_record(&self, n: u32, place: u32) -> Result<u16, Fault>
        ensures { result ≡ answer (held_fault (meaning_of self.now) n place) n }
    {
        let record = record_number(n, place)?;
        judge(self.records.get(n).is_some(), Cause::RecordEmpty, place)?;
        Ok(record)
    }
}
