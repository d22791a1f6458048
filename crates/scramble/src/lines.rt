// Lines made by dice. Numbers are small, so that lines meet each other in the heap, and each of
// their words goes wrong now and then.
use model::heap::{CELLS, LARGEST_SIZE, RECORDS};
use std::alloc::AllocError;
use text::write::{write_byte, write_number, write_text};
use trials::dice::Dice;

// What a command wants at a place.
#[derive(Clone, Copy)]
enum Word {
    Cell,
    Size,
    Number,
    Strength,
    Scheme,
}

// Numbers of a kind: the three at the edge of its range, of which each comes once in so many
// times, and how many small ones there are.
#[derive(Clone, Copy)]
struct Numbers {
    edges: [u32; 3],
    times: u32,
    small: u32,
}

const CELL_NUMBERS: Numbers = Numbers {
    edges: [CELLS as u32, CELLS as u32 - 1, u32::MAX],
    times: 40,
    small: 8,
};

const SIZES: Numbers = Numbers {
    edges: [0, LARGEST_SIZE, LARGEST_SIZE + 1],
    times: 20,
    small: 100,
};

const RECORD_NUMBERS: Numbers = Numbers {
    edges: [RECORDS as u32, RECORDS as u32 - 1, u32::MAX],
    times: 40,
    small: 16,
};

// Words that are no number and no letter that a command wants.
const BAD_WORDS: [&[u8]; 10] = [
    b"",
    b"01",
    b"4294967296",
    b"12345678901",
    b"-1",
    b"1\t",
    b"q",
    b"ss",
    b"\xb3",
    b"5s",
];

fn write_any_number(
    dice: &mut Dice,
    line: &mut Vec<u8>,
    numbers: Numbers,
) -> Result<(), AllocError> {
    let number = match numbers.edges.get(dice.roll(numbers.times) as usize) {
        Some(&edge) => edge,
        None => dice.roll(numbers.small),
    };
    write_number(line, u64::from(number))
}

fn write_word(dice: &mut Dice, line: &mut Vec<u8>, word: Word) -> Result<(), AllocError> {
    if dice.once_in(40) {
        return write_text(line, BAD_WORDS[dice.roll(10) as usize]);
    }
    match word {
        Word::Cell => write_any_number(dice, line, CELL_NUMBERS),
        Word::Size => write_any_number(dice, line, SIZES),
        Word::Number => write_any_number(dice, line, RECORD_NUMBERS),
        Word::Strength => write_byte(line, b"sfwp"[dice.roll(4) as usize]),
        Word::Scheme => write_byte(line, b"sbdb"[dice.roll(4) as usize]),
    }
}

// A command and its words, of which one may be missing, or one too many there.
fn write_words(
    dice: &mut Dice,
    line: &mut Vec<u8>,
    letter: u8,
    words: &[Word],
) -> Result<(), AllocError> {
    write_byte(line, letter)?;
    for &word in words {
        if dice.once_in(60) {
            return Ok(());
        }
        write_byte(line, b' ')?;
        write_word(dice, line, word)?;
    }
    if dice.once_in(40) {
        write_text(line, b" 7")?;
    }
    Ok(())
}

fn write_command(dice: &mut Dice, line: &mut Vec<u8>) -> Result<(), AllocError> {
    let (letter, words): (u8, &[Word]) = match dice.roll(16) {
        0..=2 => (b'c', &[Word::Cell, Word::Size]),
        3 | 4 => (b'r', &[Word::Number, Word::Cell]),
        5..=7 => (
            b'l',
            &[Word::Number, Word::Cell, Word::Cell, Word::Strength],
        ),
        8..=10 => (b'e', &[Word::Number, Word::Cell, Word::Cell, Word::Cell]),
        11 | 12 => (b'x', &[Word::Number]),
        13 => (b'g', &[Word::Scheme]),
        14 => (b'w', &[Word::Scheme, Word::Cell]),
        _ => (b'q', &[Word::Number]),
    };
    write_words(dice, line, letter, words)
}

// Any bytes but the one that ends a line.
fn write_noise(dice: &mut Dice, line: &mut Vec<u8>) -> Result<(), AllocError> {
    for _ in 0..dice.roll(120) {
        match dice.roll(256) as u8 {
            b'\n' => write_byte(line, b' ')?,
            byte => write_byte(line, byte)?,
        }
    }
    Ok(())
}

// A line of 79 to 82 bytes that begins as a command.
fn write_long(dice: &mut Dice, line: &mut Vec<u8>) -> Result<(), AllocError> {
    write_text(line, b"c 1 ")?;
    for _ in 0..75 + dice.roll(4) {
        write_byte(line, b'1')?;
    }
    Ok(())
}

// Writes a line, without the byte that ends it.
pub fn write_line(dice: &mut Dice, line: &mut Vec<u8>) -> Result<(), AllocError> {
    match dice.roll(40) {
        0 => Ok(()),
        1 => write_noise(dice, line),
        2 => write_long(dice, line),
        _ => write_command(dice, line),
    }
}
