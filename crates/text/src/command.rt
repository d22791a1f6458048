ghost use Rattle.std.specs.Prelude.{◌≡◌, Ok, Option};
ghost use Rattle.std.specs.Option.{option_map, option_copied};
ghost use Rattle.std.specs.Result.{result_ok};
ghost use Rattle.model.specs.Strengths.{strength_number};
ghost use Rattle.text.specs.Words.{place_of, digits_of, letter_of};
ghost use Rattle.text.specs.Tokens.{lexeme_of, reading_of};
ghost use Rattle.text.specs.Commands.{wanted, number_in, strength_letter, scheme_letter};
ghost use Rattle.text.specs.Commands.{strength_in, scheme_in, counted, command_in};
ghost use Rattle.text.specs.Commands.{put_in, root_in, link_in, tie_in, erase_in, grade_in, why_in};

use crate::number::value;
use crate::refusal::Refusal;
use crate::words::{Token, Words};
use model::fault::Cause;
use model::record::Strength;

// The schemes that a script can name.
#[derive(Clone, Copy, PartialEq, Eq, Debug)]
pub enum SchemeName {
    Strength,
    Bytes,
    Depth,
}

// What a line asks for. Numbers are as the line gives them, and a strength is a number too: the
// heap judges them.
#[derive(Clone, Copy, PartialEq, Eq, Debug)]
pub enum Command {
    Put {
        cell: u32,
        size: u32,
    },
    Root {
        number: u32,
        target: u32,
    },
    Link {
        number: u32,
        source: u32,
        target: u32,
        strength: u32,
    },
    Tie {
        number: u32,
        table: u32,
        key: u32,
        value: u32,
    },
    Erase {
        number: u32,
    },
    Grade {
        scheme: SchemeName,
    },
    Why {
        scheme: SchemeName,
        cell: u32,
    },
}

// A letter that is no scheme's.
#[derive(Clone, Copy, PartialEq, Eq, Debug)]
pub struct NoScheme;

// The scheme that a letter names, if it names one.
impl TryFrom<char> for SchemeName {
    type Error = NoScheme;

    ghost try_from_gives = { λ letter res. result_ok res ≡ scheme_letter letter };

    fn try_from(letter: char) -> Result<SchemeName, NoScheme> {
        match letter {
            's' => Ok(SchemeName::Strength),
            'b' => Ok(SchemeName::Bytes),
            'd' => Ok(SchemeName::Depth),
            _ => Err(NoScheme),
        }
    }
}

// The strength that a letter names, if it names one. It is no `TryFrom`, since that trait
// and `Strength` are both of other crates.
fn strength_named(letter: char) -> Option<Strength>
    ensures { option_map strength_number result ≡ strength_letter letter }
{
    match letter {
        's' => Some(Strength::Strong),
        'f' => Some(Strength::Soft),
        'w' => Some(Strength::Weak),
        'p' => Some(Strength::Phantom),
        _ => None,
    }
}

impl<'a> Token<'a> {
    // The digits of the number that it may be.
    fn digits(self) -> Option<&'a [u8]>
        ensures { option_copied result ≡ digits_of (lexeme_of self.entry) }
    {
        match self {
            Token::Number { digits, .. } => Some(digits),
            Token::Letter { .. } | Token::Other { .. } => None,
        }
    }

    // The letter that it may be.
    fn letter(self) -> Option<char>
        ensures { result ≡ letter_of (lexeme_of self.entry) }
    {
        match self {
            Token::Letter { letter, .. } => Some(char::from(*letter)),
            Token::Number { .. } | Token::Other { .. } => None,
        }
    }

    // What was found in it. A word in which nothing was found is refused.
    fn want<T: Drop>(self, found: Option<T>) -> Result<T, Refusal>
        ensures { result ≡ wanted found (place_of (lexeme_of self.entry)) }
    {
        found.ok_or(Refusal::at(Cause::BadWord, self.at()))
    }

    fn number(self) -> Result<u32, Refusal>
        ensures { result ≡ number_in (lexeme_of self.entry) }
    {
        self.want(self.digits().and_then(value))
    }

    fn strength(self) -> Result<u32, Refusal>
        ensures { result ≡ strength_in (lexeme_of self.entry) }
    {
        self.want(self.letter().and_then(strength_named).map(u32::from))
    }

    fn scheme(self) -> Result<SchemeName, Refusal>
        ensures { result ≡ scheme_in (lexeme_of self.entry) }
    {
        self.want(
            self.letter()
                .and_then(|letter| SchemeName::try_from(letter).ok()),
        )
    }
}

impl Words<'_> {
    fn expect(&self, count: usize) -> Result<(), Refusal>
        ensures { result ≡ counted (reading_of self.now) count (Ok tt) }
    {
        if self.count == count {
            Ok(())
        } else {
            Err(Refusal::at(Cause::WordCount, 0))
        }
    }

    fn put(&self) -> Result<Command, Refusal>
        ensures { result ≡ put_in (reading_of self.now) }
    {
        self.expect(3)?;
        let cell = self.first.number()?;
        let size = self.second.number()?;
        Ok(Command::Put { cell, size })
    }

    fn root(&self) -> Result<Command, Refusal>
        ensures { result ≡ root_in (reading_of self.now) }
    {
        self.expect(3)?;
        let number = self.first.number()?;
        let target = self.second.number()?;
        Ok(Command::Root { number, target })
    }

    fn link(&self) -> Result<Command, Refusal>
        ensures { result ≡ link_in (reading_of self.now) }
    {
        self.expect(5)?;
        let number = self.first.number()?;
        let source = self.second.number()?;
        let target = self.third.number()?;
        let strength = self.fourth.strength()?;
        Ok(Command::Link {
            number,
            source,
            target,
            strength,
        })
    }

    fn tie(&self) -> Result<Command, Refusal>
        ensures { result ≡ tie_in (reading_of self.now) }
    {
        self.expect(5)?;
        let number = self.first.number()?;
        let table = self.second.number()?;
        let key = self.third.number()?;
        let value = self.fourth.number()?;
        Ok(Command::Tie {
            number,
            table,
            key,
            value,
        })
    }

    fn erase(&self) -> Result<Command, Refusal>
        ensures { result ≡ erase_in (reading_of self.now) }
    {
        self.expect(2)?;
        let number = self.first.number()?;
        Ok(Command::Erase { number })
    }

    fn grade(&self) -> Result<Command, Refusal>
        ensures { result ≡ grade_in (reading_of self.now) }
    {
        self.expect(2)?;
        let scheme = self.first.scheme()?;
        Ok(Command::Grade { scheme })
    }

    fn why(&self) -> Result<Command, Refusal>
        ensures { result ≡ why_in (reading_of self.now) }
    {
        self.expect(3)?;
        let scheme = self.first.scheme()?;
        let cell = self.second.number()?;
        Ok(Command::Why { scheme, cell })
    }

    // The command that the words make, or their first fault.
    pub fn command(&self) -> Result<Command, Refusal>
        ensures { result ≡ command_in (reading_of self.now) }
    {
        match self.verb.letter() {
            Some('c') => self.put(),
            Some('r') => self.root(),
            Some('l') => self.link(),
            Some('e') => self.tie(),
            Some('x') => self.erase(),
            Some('g') => self.grade(),
            Some('w') => self.why(),
            _ => Err(Refusal::at(Cause::NoCommand, 0)),
        }
    }
}
