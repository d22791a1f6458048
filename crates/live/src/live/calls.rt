ghost use Rattle.std.specs.Prelude.{◌≡◌, List};
ghost use Rattle.model.specs.Faults.{answer};
ghost use Rattle.model.specs.Calls.{empty_heap, put_fault, put_after, root_fault, root_after};
ghost use Rattle.model.specs.Calls.{link_fault, link_after, tie_fault, tie_after, erase_fault, erase_after};
ghost use Rattle.laws.specs.Reference.{Call};
ghost use Rattle.laws.specs.Runs.{Together};
ghost use Rattle.live.specs.Live.{meaning_of};

use super::LiveHeap;
use super::arguments::{cell_size, link_strength};
use crate::table::Table;
use model::fault::Fault;
use model::record::Record;

impl LiveHeap {
    // A heap with no cell and no record filled. Whatever calls follow, of put, root, link, tie, erase,
    // grade, why and sweep, it does what the reference model does: it refuses exactly where the model
    // finds a fault, answers both questions as the model, and tells the truth about its derivations.
    pub fn new() -> Self
        ensures is_empty { meaning_of result ≡ empty_heap }
        ensures goes_with_the_model { (calls : List (Call List)) → Together (meaning_of result) empty_heap calls }
    {
        LiveHeap {
            cells: Table::new(),
            records: Table::new(),
        }
    }

    // Fills an empty cell with a size.
    pub fn put(&mut self, cell: u32, size: u32) -> Result<(), Fault>
        ensures answers { result ≡ answer (put_fault (meaning_of self.old) cell size) tt }
        ensures leaves { meaning_of self.new ≡
            put_after (meaning_of self.old) cell size }
    {
        let n = self.empty_cell(cell, 1)?;
        let size = cell_size(size, 2)?;
        self.cells.set(n, Some(size));
        Ok(())
    }

    // Fills an empty record with a root.
    pub fn root(&mut self, record: u32, target: u32) -> Result<(), Fault>
        ensures answers { result ≡ answer (root_fault (meaning_of self.old) «record» target) tt }
        ensures leaves { meaning_of self.new ≡
            root_after (meaning_of self.old) «record» target }
    {
        let n = self.free_record(record, 1)?;
        let target = self.filled_cell(target, 2)?;
        self.records.set(n, Some(Record::Root { target }));
        Ok(())
    }

    // Fills an empty record with a link.
    pub fn link(
        &mut self,
        record: u32,
        source: u32,
        target: u32,
        strength: u32,
    ) -> Result<(), Fault>
        ensures answers { result ≡
            answer (link_fault (meaning_of self.old) «record» source target strength) tt }
        ensures leaves { meaning_of self.new ≡
            link_after (meaning_of self.old) «record» source target strength }
    {
        let n = self.free_record(record, 1)?;
        let source = self.filled_cell(source, 2)?;
        let target = self.filled_cell(target, 3)?;
        let strength = link_strength(strength, 4)?;
        let link = Record::Link {
            source,
            target,
            strength,
        };
        self.records.set(n, Some(link));
        Ok(())
    }

    // Fills an empty record with an ephemeron.
    pub fn tie(&mut self, record: u32, table: u32, key: u32, value: u32) -> Result<(), Fault>
        ensures answers { result ≡
            answer (tie_fault (meaning_of self.old) «record» table key value) tt }
        ensures leaves { meaning_of self.new ≡
            tie_after (meaning_of self.old) «record» table key value }
    {
        let n = self.free_record(record, 1)?;
        let table = self.filled_cell(table, 2)?;
        let key = self.filled_cell(key, 3)?;
        let value = self.filled_cell(value, 4)?;
        let ephemeron = Record::Ephemeron { table, key, value };
        self.records.set(n, Some(ephemeron));
        Ok(())
    }

    // Empties a filled record.
    pub fn erase(&mut self, record: u32) -> Result<(), Fault>
        ensures answers { result ≡ answer (erase_fault (meaning_of self.old) «record») tt }
        ensures leaves { meaning_of self.new ≡
            erase_after (meaning_of self.old) «record» }
    {
        let n = self.held_record(record, 1)?;
        self.records.set(n, None);
        Ok(())
    }
}
