// A line from its bytes to its answer's bytes.
ghost use Rattle.std.specs.Prelude.{◌≡◌};
ghost use Rattle.model.specs.Faults.{answer as answered};
ghost use Rattle.live.specs.Live.{meaning_of};
ghost use Rattle.text.specs.Tokens.{reading_of};
ghost use Rattle.text.specs.Writing.{Writes};
ghost use Rattle.script.specs.Lines.{fault_of, after_command, placed, obeyed, heap_after};
ghost use Rattle.script.specs.Lines.{grading_text, scheme_text, outcome_text, answer_line};
ghost use Rattle.script.specs.Lines.{why_fault_under, why_text, scheme_why_text};
ghost use Rattle.model.specs.Explaining.{why_answer};
ghost use Rattle.std.specs.Result.{result_err};

use crate::print::{print_explained, print_graded, print_refusal};
use crate::show::Shown;
use engine::grade;
use explain::why;
use live::live::LiveHeap;
use model::fault::Fault;
use model::heap::{CELLS, Heap};
use model::row::Row;
use model::scheme::Scheme;
use schemes::bytes::ByBytes;
use schemes::depth::ByDepth;
use schemes::strength::ByStrength;
use std::alloc::AllocError;
use text::command::{Command, SchemeName};
use text::refusal::Refusal;
use text::words::Words;
use text::write::{write_byte, write_text};

// What is asked of the scheme that is named. Each scheme is a type of its own, so what is asked
// is written once and compiled for each.
macro_rules! under {
    ($name:expr, $scheme:ident => $asked:expr) => {
        match $name {
            SchemeName::Strength => {
                let $scheme = &ByStrength;
                $asked
            }
            SchemeName::Bytes => {
                let $scheme = &ByBytes;
                $asked
            }
            SchemeName::Depth => {
                let $scheme = &ByDepth;
                $asked
            }
        }
    };
}

// Whether there is an explanation of the cell to print.
fn judge<S: Scheme, H: Heap>(
    scheme: &S,
    heap: &H,
    cell: u32,
    rows: &mut [Option<Row<S::Grade>>],
    steps: &mut [u16],
) -> Result<(), Fault>
    ensures { let s = S.Scheme.model scheme.now in
        let h = H.Heap.meaning heap.now in
        result ≡ answered (result_err (why_answer s h cell rows.old steps.old)) tt }
{
    why(scheme, heap, cell, rows, steps)?;
    Ok(())
}

fn judge_why(heap: &LiveHeap, scheme: SchemeName, cell: u32) -> Result<(), Fault>
    ensures { result ≡ answered (why_fault_under scheme (meaning_of heap.now) cell) tt }
{
    under!(scheme, s => judge(
        s,
        heap,
        cell,
        &mut [None; CELLS as usize],
        &mut [0; CELLS as usize],
    ))
}

// Does what a command asks of the heap.
fn perform(heap: &mut LiveHeap, command: Command) -> Result<(), Fault>
    ensures answers { result ≡ answered (fault_of (meaning_of heap.old) command) tt }
    ensures leaves { let h = meaning_of heap.old in
        meaning_of heap.new ≡ after_command h command }
{
    match command {
        Command::Put { cell, size } => heap.put(cell, size),
        Command::Root { number, target } => heap.root(number, target),
        Command::Link {
            number,
            source,
            target,
            strength,
        } => heap.link(number, source, target, strength),
        Command::Tie {
            number,
            table,
            key,
            value,
        } => heap.tie(number, table, key, value),
        Command::Erase { number } => heap.erase(number),
        Command::Grade { .. } => Ok(()),
        Command::Why { scheme, cell } => judge_why(heap, scheme, cell),
    }
}

// Adds to the heap's fault the byte where its argument's word begins.
// A closure for map_err would hold the words, of which nothing could be shown.
fn at_word<T>(res: Result<T, Fault>, words: &Words) -> Result<T, Refusal>
    ensures { result ≡ placed (reading_of words.now) res }
{
    match res {
        Ok(value) => Ok(value),
        Err(fault) => Err(Refusal {
            fault,
            byte: words.byte(fault.place),
        }),
    }
}

// Obeys a line, and says which command it was.
fn obey(heap: &mut LiveHeap, line: &[u8]) -> Result<Command, Refusal>
    ensures answers { result ≡ obeyed (meaning_of heap.old) line.now }
    ensures leaves { let h = meaning_of heap.old in
        meaning_of heap.new ≡ heap_after h line.now }
{
    let words = Words::of(line)?;
    let command = words.command()?;
    at_word(perform(heap, command), &words)?;
    Ok(command)
}

// Grades the heap into lent rows, and prints what was found.
pub fn print_grades<S: Scheme, H: Heap>(
    out: &mut Vec<u8>,
    scheme: &S,
    heap: &H,
    rows: &mut [Option<Row<S::Grade>>],
) -> Result<(), AllocError>
where
    S::Grade: Shown,
    ensures { let s = S.Scheme.model scheme.now in
        let h = H.Heap.meaning heap.now in
        let text = grading_text S.Grade.Shown.text s h rows.old in
        Writes result out.old text out.new }
{
    match grade(scheme, heap, rows) {
        Ok(counts) => print_graded(out, counts, &rows[..CELLS as usize]),
        Err(fault) => print_refusal(out, Refusal { fault, byte: 0 }),
    }
}

// Grades the heap under the scheme that is named, and prints what was found.
pub fn print_scheme<H: Heap>(
    out: &mut Vec<u8>,
    heap: &H,
    scheme: SchemeName,
) -> Result<(), AllocError>
    ensures { let text = scheme_text scheme (H.Heap.meaning heap.now) in
        Writes result out.old text out.new }
{
    under!(scheme, s => print_grades(out, s, heap, &mut [None; CELLS as usize]))
}

// Explains a cell into lent rows and steps, and prints the explanation.
pub fn print_why<S: Scheme, H: Heap>(
    out: &mut Vec<u8>,
    scheme: &S,
    heap: &H,
    cell: u32,
    rows: &mut [Option<Row<S::Grade>>],
    steps: &mut [u16],
) -> Result<(), AllocError>
where
    S::Grade: Shown,
    ensures { let s = S.Scheme.model scheme.now in
        let h = H.Heap.meaning heap.now in
        let text = why_text S.Grade.Shown.text s h cell rows.old steps.old in
        Writes result out.old text out.new }
{
    match why(scheme, heap, cell, rows, steps) {
        Ok(found) => print_explained(out, found, steps),
        Err(fault) => print_refusal(out, Refusal { fault, byte: 4 }),
    }
}

// Explains a cell under the scheme that is named, and prints the explanation.
pub fn print_scheme_why<H: Heap>(
    out: &mut Vec<u8>,
    heap: &H,
    scheme: SchemeName,
    cell: u32,
) -> Result<(), AllocError>
    ensures { let text = scheme_why_text scheme (H.Heap.meaning heap.now) cell in
        Writes result out.old text out.new }
{
    under!(scheme, s => print_why(
        out,
        s,
        heap,
        cell,
        &mut [None; CELLS as usize],
        &mut [0; CELLS as usize],
    ))
}

// Prints what came of a line. Grading changes nothing, so it is done here.
fn print_outcome(
    out: &mut Vec<u8>,
    heap: &LiveHeap,
    outcome: Result<Command, Refusal>,
) -> Result<(), AllocError>
    ensures { let h = meaning_of heap.now in
        Writes result out.old (outcome_text h outcome) out.new }
{
    match outcome {
        Ok(Command::Grade { scheme }) => print_scheme(out, heap, scheme),
        Ok(Command::Why { scheme, cell }) => print_scheme_why(out, heap, scheme, cell),
        Ok(_) => write_text(out, b"ok"),
        Err(refusal) => print_refusal(out, refusal),
    }
}

// Obeys a line, and puts its answer behind what `out` holds. A refused line leaves
// the heap alone.
pub fn answer(heap: &mut LiveHeap, line: &[u8], out: &mut Vec<u8>) -> Result<(), AllocError>
    ensures writes { let h = meaning_of heap.old in
        Writes result out.old (answer_line h line.now) out.new }
    ensures leaves { let h = meaning_of heap.old in
        meaning_of heap.new ≡ heap_after h line.now }
{
    let outcome = obey(heap, line);
    print_outcome(out, heap, outcome)?;
    write_byte(out, b'\n')
}
