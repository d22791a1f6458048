// Reads a script from standard input and prints one answer a line.
#![tactic(auto)]

use script::script::Script;
use std::io;
use std::io::{BufRead, BufReader, Write};

// As many bytes are read at a time.
const CHUNK: usize = 65536;

// Answers are written out once there are as many bytes of them.
const ENOUGH: usize = 65536;

fn write_out<W: Write>(output: &mut W, answers: &mut Vec<u8>) -> io::Result<()> {
    output.write_all(answers)?;
    answers.clear();
    Ok(())
}

fn main(rt: HostRuntime) -> io::Result<()> {
    let mut input = BufReader::with_capacity(rt.alloc(), CHUNK, rt.stdin())?;
    let mut output = rt.stdout();
    let mut script = Script::new();
    let mut answers = Vec::new(rt.alloc());
    for _ in 0..u64::MAX {
        let chunk = input.fill_buf()?;
        if chunk.is_empty() {
            break;
        }
        for byte in chunk {
            script.take(*byte, &mut answers)?;
            if answers.len() >= ENOUGH {
                write_out(&mut output, &mut answers)?;
            }
        }
        let count = chunk.len();
        input.consume(count);
        // what a line has asked is answered before more is read
        write_out(&mut output, &mut answers)?;
    }
    script.end(&mut answers)?;
    write_out(&mut output, &mut answers)
}
