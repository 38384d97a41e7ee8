// The numbers of the refusals that the lexer gives, as document 01 and the C interface have them, and its two limits.
// They are no enum, since the parser's refusals 12 to 27 go on with them.
pub const BAD_TABLE: u32 = 1;

pub const LONG_SOURCE: u32 = 2;

pub const NOT_UTF8: u32 = 3;

pub const BARE_RETURN: u32 = 4;

pub const BARRED_CHARACTER: u32 = 5;

pub const BARRED_WORD: u32 = 6;

pub const BARE_DATE: u32 = 7;

pub const LEADING_ZERO: u32 = 8;

pub const OPEN_STRING: u32 = 9;

pub const OTHER_BYTE: u32 = 10;

pub const NO_ROOM: u32 = 11;

pub const NO_DAY: u32 = 28;

pub const SOURCE_LIMIT: usize = 1048576;

pub const TABLE_LIMIT: usize = 65536;

// A refusal: its number, and the bytes at fault, of the table under number 1 and of the source under the others.
#[derive(Clone, Copy, Debug, PartialEq, Eq)]
pub struct Refusal {
    pub number: u32,
    pub start: usize,
    pub end: usize,
}

// Why a source has no tokens: a refusal, or 11 with the need.
#[derive(Clone, Copy, Debug, PartialEq, Eq)]
pub enum Failure {
    Refused(Refusal),
    Short(usize),
}
