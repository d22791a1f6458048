// Scripts, run line by line and byte by byte.
use crate::answers::{Refused, is_right, read_answer};
use crate::lines::write_line;
use live::live::LiveHeap;
use script::line::answer;
use script::script::Script;
use std::alloc::{AllocError, Global};
use text::write::write_text;
use trials::dice::Dice;
use trials::fill::{differences, rebuilt};
use trials::tally::Tally;

fn note(tally: &mut Tally, answer: Result<(), Refused>) {
    match answer {
        Ok(()) => tally.note_accepted(),
        Err(refused) => tally.note_refused(refused.number),
    }
}

// Answers a line, and notes whether the answer and the heap after it are right.
fn try_line(
    tally: &mut Tally,
    heap: &mut LiveHeap,
    line: &[u8],
    out: &mut Vec<u8>,
) -> Result<(), AllocError> {
    let Ok(before) = rebuilt(heap) else {
        tally.note_wrong();
        return Ok(());
    };
    answer(heap, line, out)?;
    let changed = differences(&before, heap);
    match read_answer(out) {
        Some(found) if is_right(line, found, changed) => note(tally, found),
        _ => tally.note_wrong(),
    }
    Ok(())
}

fn feed(script: &mut Script, line: &[u8], out: &mut Vec<u8>) -> Result<(), AllocError> {
    for &byte in line {
        script.take(byte, out)?;
    }
    script.take(b'\n', out)
}

// Runs a script of so many lines, and says whether it prints the answers to its lines.
pub fn try_script(
    memory: Global,
    dice: &mut Dice,
    tally: &mut Tally,
    lines: u32,
) -> Result<bool, AllocError> {
    let mut heap = LiveHeap::new();
    let mut script = Script::new();
    let mut answers = Vec::new(memory);
    let mut printed = Vec::new(memory);
    let mut line = Vec::new(memory);
    let mut out = Vec::new(memory);
    for _ in 0..lines {
        line.clear();
        out.clear();
        write_line(dice, &mut line)?;
        try_line(tally, &mut heap, &line, &mut out)?;
        write_text(&mut answers, &out)?;
        feed(&mut script, &line, &mut printed)?;
    }
    script.end(&mut printed)?;
    Ok(answers == printed)
}
