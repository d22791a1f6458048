ghost use Rattle.std.specs.Prelude.{◌≡◌};
ghost use Rattle.model.specs.Faults.{fault, layer_of, number_of, letter_of};

// Who a fault speaks of: the one who wrote the text, the one who called the heap,
// or the one who saved the file.
#[derive(Clone, Copy, PartialEq, Eq, Debug)]
pub enum Layer {
    Text,
    Heap,
    File,
}

impl Layer {
    // The letter that stands for the layer in an answer.
    pub fn letter(self) -> u8
        ensures { result ≡ letter_of self }
    {
        match self {
            Layer::Text => b't',
            Layer::Heap => b'h',
            Layer::File => b'f',
        }
    }
}

// Why a call or a line is refused.
#[derive(Clone, Copy, PartialEq, Eq, Debug)]
pub enum Cause {
    // a cell number above 1,023
    CellNumber,
    // put on a filled cell
    CellFilled,
    // a size of 0 or above 1,048,576
    CellSize,
    // a record number above 4,095
    RecordNumber,
    // root, link or tie on a filled record
    RecordFilled,
    // a record names an empty cell
    CellEmpty,
    // a strength above 3
    StrengthNumber,
    // erase of an empty record
    RecordEmpty,
    // fewer than 1,024 rows
    RowsShort,
    // a sweep's list of cells has fewer than 1,024 places
    CellsShort,
    // a sweep's list of records has fewer than 4,096 places
    RecordsShort,
    // more steps than the list holds
    StepsShort,
    // why of a cell that is empty or unsettled
    NotSettled,
    // a limit made of a number that is no grade
    LimitNumber,
    // a file of fewer than 36 or more than 65,536 bytes
    FileLength,
    // a file that does not open with its four lead bytes
    LeadBytes,
    // a section that does not start where the one before ends, or does not end with the file
    SectionPlace,
    // a section whose length is no multiple of its entries' length
    SectionLength,
    // a field outside its range
    FieldRange,
    // an entry's number that is not above the one before
    NumberOrder,
    // a record number that an earlier section has
    RecordTwice,
    // an entry names a cell that the file does not have
    CellMissing,
    // a line over 80 bytes
    LineLong,
    // a first word that is no command
    NoCommand,
    // a wrong count of words
    WordCount,
    // a word that is not the number or the letter wanted
    BadWord,
}

impl Cause {
    // The fault of this cause at a place.
    pub fn at(self, place: u32) -> Fault
        ensures { result ≡ fault self place }
    {
        Fault { cause: self, place }
    }

    pub fn layer(self) -> Layer
        ensures { result ≡ layer_of self }
    {
        match self {
            Cause::LineLong | Cause::NoCommand | Cause::WordCount | Cause::BadWord => Layer::Text,
            Cause::FileLength
            | Cause::LeadBytes
            | Cause::SectionPlace
            | Cause::SectionLength
            | Cause::FieldRange
            | Cause::NumberOrder
            | Cause::RecordTwice
            | Cause::CellMissing => Layer::File,
            _ => Layer::Heap,
        }
    }

    pub fn number(self) -> u32
        ensures { result ≡ number_of self }
    {
        match self {
            Cause::CellNumber => 1,
            Cause::CellFilled => 2,
            Cause::CellSize => 3,
            Cause::RecordNumber => 4,
            Cause::RecordFilled => 5,
            Cause::CellEmpty => 6,
            Cause::StrengthNumber => 7,
            Cause::RecordEmpty => 8,
            Cause::RowsShort => 9,
            Cause::CellsShort => 10,
            Cause::RecordsShort => 11,
            Cause::StepsShort => 11,
            Cause::NotSettled => 12,
            Cause::LimitNumber => 13,
            Cause::FileLength => 20,
            Cause::LeadBytes => 21,
            Cause::SectionPlace => 22,
            Cause::SectionLength => 23,
            Cause::FieldRange => 24,
            Cause::NumberOrder => 25,
            Cause::RecordTwice => 26,
            Cause::CellMissing => 27,
            Cause::LineLong => 30,
            Cause::NoCommand => 31,
            Cause::WordCount => 32,
            Cause::BadWord => 33,
        }
    }
}

// A refusal: its cause, which has a layer and a number, and its place.
// On the heap's layer the place is the argument, counted from 1, and 0 for
// working memory; on the text's layer it is the byte of the line, from 0; on the
// file's layer it is the byte of the file, from 0.
#[derive(Clone, Copy, PartialEq, Eq, Debug)]
pub struct Fault {
    pub cause: Cause,
    pub place: u32,
}
