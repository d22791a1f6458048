// What a line's answer has to look like, and what a line may change.
use text::number::value;

// The refusal of a line: the number of its fault, and the byte where it lies.
#[derive(Clone, Copy)]
pub struct Refused {
    pub number: u32,
    byte: u32,
}

impl Refused {
    // What stands behind `no`, the layer and a space: the number, a space and the byte.
    fn read(text: &[u8]) -> Option<Refused> {
        let space = text.iter().position(|&letter| letter == b' ')?;
        Some(Refused {
            number: value(&text[..space])?,
            byte: value(&text[space + 1..])?,
        })
    }

    // Whether its byte is where a word of the line begins; that of a long line is the first too
    // many.
    fn is_in(self, line: &[u8]) -> bool {
        let at = self.byte as usize;
        if self.number == 30 {
            at == 80 && line.len() > 80
        } else {
            at == 0 || line.get(at - 1) == Some(&b' ')
        }
    }
}

// The answer that was printed, if it is one line and one answer.
pub fn read_answer(printed: &[u8]) -> Option<Result<(), Refused>> {
    let [text @ .., b'\n'] = printed else {
        return None;
    };
    if text.contains(&b'\n') {
        return None;
    }
    match text {
        [b'o', b'k'] | [b'o', b'k', b' ', ..] => Some(Ok(())),
        [b'n', b'o', b' ', b't' | b'h', b' ', rest @ ..] => Refused::read(rest).map(Err),
        _ => None,
    }
}

// Whether an answer goes with its line and with how many cells and records the line changed: a
// refused line changes none, and so do the questions; any other changes one.
pub fn is_right(line: &[u8], answer: Result<(), Refused>, changed: u32) -> bool {
    match answer {
        Err(refused) => changed == 0 && refused.is_in(line),
        Ok(()) if matches!(line, [b'g' | b'w', ..]) => changed == 0,
        Ok(()) => changed == 1,
    }
}
