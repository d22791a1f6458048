ghost use Rattle.std.specs.Prelude.{◌≡◌};
ghost use Rattle.guide.specs.OnlyRoot.{meaning_of, formed_of, size_in, size_if};

use super::OnlyRoot;
use model::heap::{Heap, LARGEST_SIZE};
use model::record::Record;

impl OnlyRoot {
    // The heap whose cell has that size, if it is one's.
    pub fn new(size: u32) -> Option<OnlyRoot>
        ensures { size_in result ≡ size_if size }
    {
        if (1..=LARGEST_SIZE).contains(&size) {
            Some(OnlyRoot { size })
        } else {
            None
        }
    }
}

impl Heap for OnlyRoot {
    ghost meaning = { meaning_of };

    ghost formed = { formed_of };

    fn cell(&self, n: u32) -> Option<u32> {
        (n == 0).then_some(self.size)
    }

    fn record(&self, n: u32) -> Option<Record> {
        (n == 0).then_some(Record::Root { target: 0 })
    }
}
