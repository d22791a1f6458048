ghost use Rattle.live.specs.Live.{meaning_of, formed_of};

use super::LiveHeap;
use model::heap::Heap;
use model::record::Record;

impl Heap for LiveHeap {
    ghost meaning = { meaning_of };

    ghost formed = { formed_of };

    fn cell(&self, n: u32) -> Option<u32> {
        self.cells.get(n)
    }

    fn record(&self, n: u32) -> Option<Record> {
        self.records.get(n)
    }
}
