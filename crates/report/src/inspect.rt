// What there is to say of a saved heap's file.
ghost use Rattle.text.specs.Writing.{Writes};
ghost use Rattle.report.specs.Inspect.{summary_text, graded_line, explained_lines, wanted_lines};
ghost use Rattle.report.specs.Inspect.{shown_text, file_refusal_text, inspect_text};

use crate::count::{filled_cells, filled_records};
use model::fault::Fault;
use model::heap::Heap;
use script::line::{print_scheme, print_scheme_why};
use script::print::print_refusal;
use snapshot::snapshot::Snapshot;
use std::alloc::AllocError;
use text::command::SchemeName;
use text::refusal::Refusal;
use text::write::{write_byte, write_number, write_text};

// What is asked of a file, besides a summary. The cases have names, which options would not have.
#[derive(Clone, Copy)]
pub enum Wanted {
    Summary,
    Grades { scheme: SchemeName },
    Why { scheme: SchemeName, cell: u32 },
}

// A line with how many cells and records are filled.
fn print_summary<H: Heap>(out: &mut Vec<u8>, heap: &H) -> Result<(), AllocError>
    ensures { let text = summary_text (H.Heap.meaning heap.now) in
        Writes result out.old text out.new }
{
    write_text(out, b"ok ")?;
    write_number(out, u64::from(filled_cells(heap)))?;
    write_byte(out, b' ')?;
    write_number(out, u64::from(filled_records(heap)))?;
    write_byte(out, b'\n')
}

// A line with the grades.
fn print_grading<H: Heap>(out: &mut Vec<u8>, heap: &H, scheme: SchemeName) -> Result<(), AllocError>
    ensures { let text = graded_line scheme (H.Heap.meaning heap.now) in
        Writes result out.old text out.new }
{
    print_scheme(out, heap, scheme)?;
    write_byte(out, b'\n')
}

// A line with the grades, and one with the explanation of a cell.
fn print_explanation<H: Heap>(
    out: &mut Vec<u8>,
    heap: &H,
    scheme: SchemeName,
    cell: u32,
) -> Result<(), AllocError>
    ensures { let text = explained_lines scheme cell (H.Heap.meaning heap.now) in
        Writes result out.old text out.new }
{
    print_grading(out, heap, scheme)?;
    print_scheme_why(out, heap, scheme, cell)?;
    write_byte(out, b'\n')
}

fn print_wanted<H: Heap>(out: &mut Vec<u8>, heap: &H, wanted: Wanted) -> Result<(), AllocError>
    ensures { let text = wanted_lines wanted (H.Heap.meaning heap.now) in
        Writes result out.old text out.new }
{
    match wanted {
        Wanted::Summary => Ok(()),
        Wanted::Grades { scheme } => print_grading(out, heap, scheme),
        Wanted::Why { scheme, cell } => print_explanation(out, heap, scheme, cell),
    }
}

fn print_file_refusal(out: &mut Vec<u8>, fault: Fault) -> Result<(), AllocError>
    ensures { Writes result out.old (file_refusal_text fault) out.new }
{
    let refusal = Refusal {
        fault,
        byte: fault.place,
    };
    print_refusal(out, refusal)?;
    write_byte(out, b'\n')
}

fn print_heap<H: Heap>(out: &mut Vec<u8>, heap: &H, wanted: Wanted) -> Result<(), AllocError>
    ensures { let text = shown_text wanted (H.Heap.meaning heap.now) in
        Writes result out.old text out.new }
{
    print_summary(out, heap)?;
    print_wanted(out, heap, wanted)
}

// Opens the file's bytes and prints what they hold: a summary and what else is wanted,
// or the first fault of a file that does not open.
pub fn inspect(bytes: &[u8], wanted: Wanted, out: &mut Vec<u8>) -> Result<(), AllocError>
    ensures { let text = inspect_text bytes.now wanted in
        Writes result out.old text out.new }
{
    let mut snapshot = Snapshot::empty();
    match snapshot.open(bytes) {
        Ok(()) => print_heap(out, &snapshot, wanted),
        Err(fault) => print_file_refusal(out, fault),
    }
}
