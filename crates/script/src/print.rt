// The answers as they are printed, without the byte that ends the line.
ghost use Rattle.text.specs.Writing.{Writes};
ghost use Rattle.script.specs.Answers.{number_text, refusal_text, row_text, rows_text, graded_text};
ghost use Rattle.script.specs.Answers.{steps_text, explained_text};

use crate::show::Shown;
use model::row::{Counts, Row, Why};
use std::alloc::AllocError;
use text::refusal::Refusal;
use text::write::{write_byte, write_number, write_text};

// A number behind a space.
fn print_number(out: &mut Vec<u8>, number: u64) -> Result<(), AllocError>
    ensures { Writes result out.old (number_text number) out.new }
{
    write_byte(out, b' ')?;
    write_number(out, number)
}

pub fn print_refusal(out: &mut Vec<u8>, refusal: Refusal) -> Result<(), AllocError>
    ensures { Writes result out.old (refusal_text refusal) out.new }
{
    let cause = refusal.fault.cause;
    write_text(out, b"no ")?;
    write_byte(out, cause.layer().letter())?;
    print_number(out, u64::from(cause.number()))?;
    print_number(out, u64::from(refusal.byte))
}

// A settled cell with its row.
fn print_row<G: Shown>(out: &mut Vec<u8>, cell: u64, row: Row<G>) -> Result<(), AllocError>
    ensures { Writes result out.old (row_text G.Shown.text cell row) out.new }
{
    print_number(out, cell)?;
    write_byte(out, b'=')?;
    row.grade.write(out)?;
    write_byte(out, b'/')?;
    write_number(out, u64::from(row.holder))
}

// The settled cells in their order.
fn print_rows<G: Shown>(out: &mut Vec<u8>, rows: &[Option<Row<G>>]) -> Result<(), AllocError>
    ensures { let text = rows_text G.Shown.text 0 rows.now in
        Writes result out.old text out.new }
{
    for (cell, row) in rows.iter().enumerate() {
        if let Some(row) = row {
            print_row(out, cell as u64, *row)?;
        }
    }
    Ok(())
}

// What grading found: both counts, and the settled cells.
pub fn print_graded<G: Shown>(
    out: &mut Vec<u8>,
    counts: Counts,
    rows: &[Option<Row<G>>],
) -> Result<(), AllocError>
    ensures { let text = graded_text G.Shown.text counts rows.now in
        Writes result out.old text out.new }
{
    write_text(out, b"ok")?;
    print_number(out, u64::from(counts.settled))?;
    print_number(out, u64::from(counts.weighed))?;
    print_rows(out, rows)
}

fn print_steps(out: &mut Vec<u8>, steps: &[u16]) -> Result<(), AllocError>
    ensures { Writes result out.old (steps_text steps.now) out.new }
{
    for step in steps {
        print_number(out, u64::from(*step))?;
    }
    Ok(())
}

// Why a cell survives: its grade, the count of the steps, and the steps. Where the list is
// shorter than the count, it is printed whole.
pub fn print_explained<G: Shown>(
    out: &mut Vec<u8>,
    why: Why<G>,
    steps: &[u16],
) -> Result<(), AllocError>
    ensures { let text = explained_text G.Shown.text why steps.now in
        Writes result out.old text out.new }
{
    write_text(out, b"ok ")?;
    why.grade.write(out)?;
    print_number(out, u64::from(why.count))?;
    print_steps(out, steps.get(..why.count as usize).unwrap_or(steps))
}
