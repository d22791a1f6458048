ghost use Rattle.std.specs.Prelude.{◌≡◌, []};
ghost use Rattle.model.specs.Calls.{empty_heap};
ghost use Rattle.text.specs.Writing.{Writes};
ghost use Rattle.script.specs.Scripts.{line_ended, line_answer, after_byte, byte_prints};
ghost use Rattle.script.specs.Scripts.{after_end, end_prints, AnswersEachLine};
ghost use Rattle.script.specs.Held.{state_of};

use crate::line::answer;
use arrayvec::ArrayVec;
use live::live::LiveHeap;
use std::alloc::AllocError;

// As much of a line as is kept: one byte more than a line may have.
const KEPT: usize = 81;

// A script whose bytes come in one after another: its heap, and the line so far.
#[derive(Drop)]
pub struct Script {
    heap: LiveHeap,
    line: ArrayVec<u8, KEPT>,
}

impl Script {
    // A new heap, and no line begun.
    pub fn new() -> Self
        ensures new { state_of result ≡ record { heap = empty_heap; line = [] } }
        ensures answers_each_line { AnswersEachLine (state_of result) }
    {
        Script {
            heap: LiveHeap::new(),
            line: ArrayVec::new(),
        }
    }

    // Answers the line so far, and begins another.
    fn end_line(&mut self, out: &mut Vec<u8>) -> Result<(), AllocError>
        ensures moves { state_of self.new ≡ line_ended (state_of self.old) }
        ensures writes { let st = state_of self.old in
            Writes result out.old (line_answer st) out.new }
    {
        let result = answer(&mut self.heap, self.line.as_slice(), out);
        self.line.clear();
        result
    }

    // Takes in the next byte of the input, and puts what it prints behind what `out` holds.
    pub fn take(&mut self, byte: u8, out: &mut Vec<u8>) -> Result<(), AllocError>
        ensures moves { state_of self.new ≡ after_byte (state_of self.old) byte }
        ensures writes { let st = state_of self.old in
            Writes result out.old (byte_prints st byte) out.new }
    {
        if byte == b'\n' {
            return self.end_line(out);
        }
        // A longer line is refused whatever it says, so what does not fit may go.
        let _ = self.line.try_push(byte);
        Ok(())
    }

    // Ends the input: a line that was begun is answered, and no line is begun then.
    pub fn end(&mut self, out: &mut Vec<u8>) -> Result<(), AllocError>
        ensures moves { state_of self.new ≡ after_end (state_of self.old) }
        ensures writes { let st = state_of self.old in
            Writes result out.old (end_prints st) out.new }
    {
        if self.line.is_empty() {
            return Ok(());
        }
        self.end_line(out)
    }
}
