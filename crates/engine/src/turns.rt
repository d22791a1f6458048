// The turns: each settles the cell with the best offer, and weighs the records that this
// may have made ready.
ghost use Rattle.std.specs.Prelude.{◌≡◌, ◌<◌, ◌≤◌, IfSome, length, replicate, Some, None};
ghost use Rattle.chains.specs.Places.{Chained};
ghost use Rattle.engine.specs.Queues.{SameQueue};
ghost use Rattle.engine.specs.Working.{pass as passed, tally, chosen, turned, turn_count, all_turns};

use crate::queue::Queue;
use crate::weigh::look_at;
use chains::Chains;
use model::heap::{CELLS, Heap, RECORDS};
use model::row::{Counts, Row};
use model::scheme::Scheme;

// Weighs the roots, which are ready before any cell is settled, and counts them.
fn weigh_roots<S: Scheme, H: Heap>(heap: &H, queue: &mut Queue<S>) -> u32
    ensures after { let s = S.Scheme.model queue.old.scheme.now in
        let h = H.Heap.meaning heap.now in
        queue.new.rows.now ≡ passed s h None 0 h.records queue.old.rows.now }
    ensures counted { let s = S.Scheme.model queue.old.scheme.now in
        let h = H.Heap.meaning heap.now in
        result ≡ tally s h None 0 h.records queue.old.rows.now }
    ensures small { result ≤ 4096 }
    ensures same { SameQueue queue.old queue.new }
{
    let mut roots: u32 = 0;
    for number in 0..RECORDS {
        roots += u32::from(look_at(heap, queue, None, number));
    }
    roots
}

// Weighs every record that the settling of `cell` woke, and counts those that were ready.
fn wake<S: Scheme, H: Heap>(heap: &H, queue: &mut Queue<S>, chains: &Chains, cell: u16) -> u32
    requires within { cell < 1024 }
    requires chained { Chained (H.Heap.meaning heap.now) chains.now }
    ensures after { let s = S.Scheme.model queue.old.scheme.now in
        let h = H.Heap.meaning heap.now in
        queue.new.rows.now ≡ passed s h (Some cell) 0 h.records queue.old.rows.now }
    ensures counted { let s = S.Scheme.model queue.old.scheme.now in
        let h = H.Heap.meaning heap.now in
        result ≡ tally s h (Some cell) 0 h.records queue.old.rows.now }
    ensures small { result ≤ 4096 }
    ensures same { SameQueue queue.old queue.new }
{
    let mut count: u32 = 0;
    let mut next = chains.first_of(cell);
    while let Some(place) = next {
        count += u32::from(look_at(heap, queue, Some(cell), place / 2));
        next = chains.after(place);
    }
    count
}

// Settles the cell with the best offer, weighs what waited for it and counts that; nothing
// where no offer is left.
fn take_turn<S: Scheme, H: Heap>(
    heap: &H,
    queue: &mut Queue<S>,
    chains: &Chains,
    turn: u16,
) -> Option<u32>
    requires { Chained (H.Heap.meaning heap.now) chains.now }
    ensures after { let s = S.Scheme.model queue.old.scheme.now in
        let h = H.Heap.meaning heap.now in
        let was = queue.old.rows.now in
        queue.new.rows.now ≡ turned s h turn was (chosen s was) }
    ensures counted { let s = S.Scheme.model queue.old.scheme.now in
        let h = H.Heap.meaning heap.now in
        let was = queue.old.rows.now in
        result ≡ turn_count s h turn was (chosen s was) }
    ensures small { IfSome result (λ k. k ≤ 4096) }
    ensures same { SameQueue queue.old queue.new }
{
    let offer = queue.best()?;
    queue.settle(offer, turn);
    Some(wake(heap, queue, chains, offer.cell))
}

// Settles one cell a turn until no offer is left; 1,024 turns are enough for all cells.
fn take_turns<S: Scheme, H: Heap>(heap: &H, queue: &mut Queue<S>) -> Counts
    requires { queue.old.rows.now ≡ replicate 1024 None }
    ensures after { let s = S.Scheme.model queue.old.scheme.now in
        let h = H.Heap.meaning heap.now in
        queue.new.rows.now ≡ (all_turns s h).rows }
    ensures turns { let s = S.Scheme.model queue.old.scheme.now in
        let h = H.Heap.meaning heap.now in
        result.settled ≡ (all_turns s h).turn }
    ensures counted { let s = S.Scheme.model queue.old.scheme.now in
        let h = H.Heap.meaning heap.now in
        result.weighed ≡ (all_turns s h).count }
    ensures same { SameQueue queue.old queue.new }
{
    let chains = Chains::of(heap);
    let mut weighed = weigh_roots(heap, queue);
    for turn in 0..CELLS {
        let Some(count) = take_turn(heap, queue, &chains, turn) else {
            return Counts {
                settled: u32::from(turn),
                weighed,
            };
        };
        weighed += count;
    }
    Counts {
        settled: u32::from(CELLS),
        weighed,
    }
}

// Nothing of what the rows held before counts.
fn clear<G: Copy>(rows: &mut [Option<Row<G>>])
    requires { length rows.old ≡ 1024 }
    ensures { rows.new ≡ replicate 1024 None }
{
    rows.fill(None);
}

// Settles all cells that can be, whatever the rows held before.
pub(crate) fn settle_all<S: Scheme, H: Heap>(
    scheme: &S,
    heap: &H,
    rows: &mut [Option<Row<S::Grade>>],
) -> Counts
    requires { length rows.old ≡ 1024 }
    ensures after { let s = S.Scheme.model scheme.now in
        let h = H.Heap.meaning heap.now in
        rows.new ≡ (all_turns s h).rows }
    ensures turns { let s = S.Scheme.model scheme.now in
        let h = H.Heap.meaning heap.now in
        result.settled ≡ (all_turns s h).turn }
    ensures counted { let s = S.Scheme.model scheme.now in
        let h = H.Heap.meaning heap.now in
        result.weighed ≡ (all_turns s h).count }
{
    clear(rows);
    let mut queue = Queue {
        scheme,
        rows,
        tree: &mut [None; CELLS as usize],
    };
    take_turns(heap, &mut queue)
}
