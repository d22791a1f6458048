ghost use Rattle.std.specs.Prelude.{◌≡◌, ◌+◌, ◌^◌, ◌<◌, ◌≤◌, length};
ghost use Rattle.text.specs.Words.{lexeme, front, behind, word_count, reading, byte_of, place_of};
ghost use Rattle.text.specs.Commands.{words_in};
ghost use Rattle.text.specs.Tokens.{lexeme_of, reading_of, reading_if};

use crate::refusal::Refusal;
use model::fault::Cause;

const SPACE: u8 = b' ';

// A longer line is refused.
const LONGEST: usize = 80;

// A word of a line by what it can stand for: the part of the line that it is,
// and the byte where it begins.
#[derive(Clone, Copy)]
pub enum Token<'a> {
    Number { digits: &'a [u8], at: u32 },
    Letter { letter: &'a u8, at: u32 },
    Other { at: u32 },
}

// The words of a line: how many there are, and the first five, which is as many
// as a command has. They have names, so that none is read that is not there.
#[derive(Clone, Copy)]
pub struct Words<'a> {
    pub count: usize,
    pub verb: Token<'a>,
    pub first: Token<'a>,
    pub second: Token<'a>,
    pub third: Token<'a>,
    pub fourth: Token<'a>,
}

// What is still to be read of a line, and the byte where it begins.
#[derive(Drop)]
struct Rest<'a> {
    bytes: &'a [u8],
    at: u32,
}

fn token_of<'a>(word: &'a [u8], at: u32) -> Token<'a>
    ensures { lexeme_of result ≡ lexeme word.now at }
{
    match word {
        [b'0'..=b'9', ..] => Token::Number { digits: word, at },
        [letter] => Token::Letter { letter, at },
        _ => Token::Other { at },
    }
}

// The bytes before the first space, and those behind it.
fn cut_at_space(bytes: &[u8]) -> (&[u8], &[u8])
    ensures before { result.0.now ≡ front bytes.now }
    ensures behind { result.1.now ≡ behind bytes.now }
    ensures within { length result.0.now + length result.1.now ≤ length bytes.now }
{
    match bytes.iter().position(|b| *b == SPACE) {
        Some(i) => (&bytes[..i], &bytes[i + 1..]),
        None => (bytes, &[]),
    }
}

impl<'a> Rest<'a> {
    // Takes the first word off, with the space that ends it.
    fn next_word(&mut self) -> Token<'a>
        requires fits { self.old.at + length self.old.bytes.now + 1 < 2 ^ 32 }
        ensures word { lexeme_of result ≡ lexeme (front self.old.bytes.now) self.old.at }
        ensures rest { self.new.bytes.now ≡ behind self.old.bytes.now }
        ensures next { self.new.at ≡ self.old.at + length (front self.old.bytes.now) + 1 }
        ensures within { self.new.at + length self.new.bytes.now
            ≤ self.old.at + length self.old.bytes.now + 1 }
    {
        let (word, rest) = cut_at_space(self.bytes);
        let token = token_of(word, self.at);
        self.bytes = rest;
        self.at += word.len() as u32 + 1;
        token
    }
}

// A loop, since `filter` with `count` took twice as long for a line of spaces.
fn count_words(line: &[u8]) -> usize
    ensures { result ≡ word_count line.now }
{
    let mut count = 1;
    for b in line {
        if *b == SPACE {
            count += 1;
        }
    }
    count
}

// The words of a line that is not too long.
fn read_words<'a>(line: &'a [u8]) -> Words<'a>
    requires { length line.now ≤ 80 }
    ensures { reading_of result ≡ reading line.now }
{
    let mut rest = Rest { bytes: line, at: 0 };
    Words {
        count: count_words(line),
        verb: rest.next_word(),
        first: rest.next_word(),
        second: rest.next_word(),
        third: rest.next_word(),
        fourth: rest.next_word(),
    }
}

impl<'a> Words<'a> {
    // The words of a line, which is refused where it has more than 80 bytes.
    pub fn of(line: &'a [u8]) -> Result<Self, Refusal>
        ensures { reading_if result ≡ words_in line.now }
    {
        if line.len() > LONGEST {
            return Err(Refusal::at(Cause::LineLong, LONGEST as u32));
        }
        Ok(read_words(line))
    }

    // The byte where word `k` begins, for the words behind the command.
    pub fn byte(&self, k: u32) -> u32
        ensures { result ≡ byte_of (reading_of self.now) k }
    {
        match k {
            1 => self.first.at(),
            2 => self.second.at(),
            3 => self.third.at(),
            4 => self.fourth.at(),
            _ => 0,
        }
    }
}

impl Token<'_> {
    pub(crate) fn at(self) -> u32
        ensures { result ≡ place_of (lexeme_of self.entry) }
    {
        match self {
            Token::Number { at, .. } | Token::Letter { at, .. } | Token::Other { at } => at,
        }
    }
}
