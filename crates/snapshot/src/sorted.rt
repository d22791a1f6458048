// A section whose entries' numbers rise, so that one is found by halving.
ghost use Rattle.std.specs.Prelude.{◌≡◌, ◌≤◌};
ghost use Rattle.std.specs.Option.{option_copied, option_map};
ghost use Rattle.snapshot.specs.Sections.{entry, found, has, Sorted};

use crate::section::number;

#[derive(Clone, Copy)]
pub(crate) struct SortedSection<'a, const WIDTH: usize> {
    pub(crate) bytes: &'a [u8],
    // an entry has two bytes for its number, and no more than eight in all
    ghost numbered: { 2 ≤ WIDTH },
    ghost narrow: { WIDTH ≤ 8 },
    ghost sorted: { Sorted WIDTH bytes.now },
}

impl<'a, const WIDTH: usize> SortedSection<'a, WIDTH> {
    // The entry of number `n`. The search ends where it meets the number. The library's does not,
    // and with it files whose records name few cells took three times as long to open.
    pub(crate) fn find(&self, n: u16) -> Option<&'a [u8; WIDTH]>
        ensures { option_copied result ≡
            option_map (entry WIDTH self.now.bytes.now) (found WIDTH self.now.bytes.now n) }
    {
        let entries = self.bytes.as_chunks::<WIDTH>().0;
        let mut low = 0;
        let mut high = entries.len();
        while low < high {
            let middle = low + (high - low) / 2;
            let entry = &entries[middle];
            let here = number(entry);
            if here == n {
                return Some(entry);
            }
            if here < n {
                low = middle + 1;
            } else {
                high = middle;
            }
        }
        None
    }

    pub(crate) fn contains(&self, n: u16) -> bool
        ensures { result ≡ has WIDTH self.now.bytes.now n }
    {
        self.find(n).is_some()
    }
}
