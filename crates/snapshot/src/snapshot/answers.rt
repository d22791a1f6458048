ghost use Rattle.snapshot.specs.Snapshot.{meaning_of, formed_of};

use super::Snapshot;
use crate::lookup::{cell_in, record_in};
use model::heap::{CELLS, Heap, RECORDS};
use model::record::Record;

impl<'a> Heap for Snapshot<'a> {
    ghost meaning = { meaning_of };

    ghost formed = { formed_of };

    fn cell(&self, n: u32) -> Option<u32> {
        if n < u32::from(CELLS) {
            cell_in(&self.cells, n as u16)
        } else {
            None
        }
    }

    fn record(&self, n: u32) -> Option<Record> {
        if n < u32::from(RECORDS) {
            record_in(&self.roots, &self.links, &self.ephemerons, n as u16)
        } else {
            None
        }
    }
}
