// Sweeps, held against what the naive grades say is to be kept.
use crate::trial::Trial;
use live::live::LiveHeap;
use model::heap::{CELLS, Heap, RECORDS};
use model::record::Record;
use model::scheme::{Rank, Scheme};
use naive::grades::fetch;
use sweep::sweep;
use trials::fill::rebuilt;

// What the places of a list hold that no number was written to.
const BLANK: u16 = u16::MAX;

// What a sweep is to leave of a heap. Which cells it keeps is told from the naive grades alone, by
// no code of the heap that is swept.
#[derive(Clone, Copy)]
struct Rest<'a> {
    heap: &'a LiveHeap,
    keeps: [bool; CELLS as usize],
}

impl Rest<'_> {
    fn keeps(&self, cell: u16) -> bool {
        self.keeps.get(usize::from(cell)) == Some(&true)
    }

    fn keeps_all(&self, record: Record) -> bool {
        match record {
            Record::Root { target } => self.keeps(target),
            Record::Link { source, target, .. } => self.keeps(source) && self.keeps(target),
            Record::Ephemeron { table, key, value } => {
                self.keeps(table) && self.keeps(key) && self.keeps(value)
            }
        }
    }

    fn cell(&self, n: u16) -> Option<u32> {
        self.heap.cell(u32::from(n)).filter(|_| self.keeps(n))
    }

    fn record(&self, n: u16) -> Option<Record> {
        self.heap
            .record(u32::from(n))
            .filter(|&record| self.keeps_all(record))
    }

    // Whether a swept heap is what is to be left.
    fn is_left(&self, swept: &LiveHeap) -> bool {
        (0..CELLS).all(|n| swept.cell(u32::from(n)) == self.cell(n))
            && (0..RECORDS).all(|n| swept.record(u32::from(n)) == self.record(n))
    }

    // Whether the cells that are to go are listed.
    fn lists_cells(&self, listed: &[u16], count: u32) -> bool {
        lists(
            listed,
            count,
            |n| self.heap.cell(u32::from(n)) != self.cell(n),
        )
    }

    fn lists_records(&self, listed: &[u16], count: u32) -> bool {
        lists(
            listed,
            count,
            |n| self.heap.record(u32::from(n)) != self.record(n),
        )
    }
}

// Whether a list begins with exactly the numbers that are to go, so many by count, and is blank
// behind them.
fn lists<F: Fn(u16) -> bool>(listed: &[u16], count: u32, goes: F) -> bool
    requires { F.IsAlwaysCallable goes }
{
    let Some((front, behind)) = listed.split_at_checked(count as usize) else {
        return false;
    };
    let numbers = (0..RECORDS).filter(|&n| goes(n));
    front.iter().copied().eq(numbers) && behind.iter().all(|&n| n == BLANK)
}

impl<S: Scheme> Trial<'_, S>
where
    S::Grade: PartialEq,
{
    // What is to be left by a sweep at a limit.
    fn rest(&self, limit: S::Grade) -> Rest<'_> {
        let mut keeps = [false; CELLS as usize];
        for (keep, grade) in keeps.iter_mut().zip(&self.grades) {
            *keep = grade.is_some_and(|grade| self.scheme.rank(grade, limit) != Rank::After);
        }
        Rest {
            heap: self.heap,
            keeps,
        }
    }

    // Whether the kept cells of a swept heap have the grades that they had, and no other cell has
    // one.
    fn keeps_grades(&self, swept: &LiveHeap, rest: &Rest) -> bool {
        let mut after = [None; CELLS as usize];
        naive::passes::grade(self.scheme, swept, &mut after)
            && (0..CELLS).all(|cell| {
                fetch(&after, cell) == fetch(&self.grades, cell).filter(|_| rest.keeps(cell))
            })
    }

    // Sweeps a copy of the heap, and counts the cells that went where the sweep was right: exactly
    // what is to go is listed and gone, and the grades are what they were.
    pub fn sweep(&mut self, limit: S::Grade) -> Option<u32> {
        let mut swept = rebuilt(self.heap).ok()?;
        let mut cells = [BLANK; CELLS as usize];
        let mut records = [BLANK; RECORDS as usize];
        let gone = sweep(
            self.scheme,
            &mut swept,
            limit,
            &mut self.rows,
            &mut cells,
            &mut records,
        )
        .ok()?;
        let rest = self.rest(limit);
        let right = rest.lists_cells(&cells, gone.cells)
            && rest.lists_records(&records, gone.records)
            && rest.is_left(&swept)
            && self.keeps_grades(&swept, &rest);
        right.then_some(gone.cells)
    }
}
