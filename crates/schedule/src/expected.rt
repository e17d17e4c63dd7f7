// What is wrong with a text: what was expected in place of what stands there.
use crate::header::Header;
use crate::keyword::{Keyword, Names};
use crate::scheme::Scheme;
use std::error::Error;
use std::fmt;

#[derive(Clone, Copy, PartialEq, Eq, Debug)]
pub enum Expected {
    Utf8,
    // a header line or a word line
    Name,
    Number { most: u32 },
    Scheme,
    ItemSort,
    ByteString,
    RawWord,
    ClosingQuote,
    GapAfterQuote,
    EndOfLine,
    // the header line is missing before the first word
    Header(Header),
    // it stands there a second time
    HeaderOnce(Header),
    // it comes after a word
    HeaderFirst(Header),
    FewerWords { most: u32 },
}

impl fmt::Display for Expected {
    fn fmt<W: fmt::Write>(&self, f: &mut fmt::Formatter<W>) -> fmt::Result {
        match *self {
            Expected::Utf8 => f.write_str("text in UTF-8"),
            Expected::Name => f.write_str("a header line or a word line"),
            Expected::Number { most } => write!(f, "a number from 0 to {most}"),
            Expected::Scheme => write!(f, "{}", Names { all: Scheme::all() }),
            Expected::ItemSort => f.write_str("numbers or bytes"),
            Expected::ByteString => f.write_str(
                "a byte string: quoted printable ASCII, or x and pairs of hexadecimal digits",
            ),
            Expected::RawWord => f.write_str("a raw word: 0x and 1 to 8 hexadecimal digits"),
            Expected::ClosingQuote => f.write_str("a closing quote"),
            Expected::GapAfterQuote => f.write_str(
                "a space, a tab or the end of the line after the closing quote",
            ),
            Expected::EndOfLine => f.write_str("the end of the line"),
            Expected::Header(header) => {
                write!(
                    f,
                    "the header line '{}' before the first word",
                    header.name()
                )
            }
            Expected::HeaderOnce(header) => {
                write!(f, "the header line '{}' only once", header.name())
            }
            Expected::HeaderFirst(header) => {
                write!(f, "no header line '{}' after a word", header.name())
            }
            Expected::FewerWords { most } => write!(f, "at most {most} words in all"),
        }
    }
}

// Why a text gave no schedule.
#[derive(Clone, Copy, PartialEq, Eq, Debug)]
pub enum Unread {
    // the first bad line, counted from 1
    Bad { line: usize, expected: Expected },
    // the text is good, but one of its byte strings has more than 11 bytes
    TooLong,
    Memory,
}

impl fmt::Display for Unread {
    fn fmt<W: fmt::Write>(&self, f: &mut fmt::Formatter<W>) -> fmt::Result {
        match *self {
            Unread::Bad { line, expected } => write!(f, "line {line}: expected {expected}"),
            Unread::TooLong => f.write_str("a byte string has more than 11 bytes"),
            Unread::Memory => f.write_str("not enough memory for the schedule"),
        }
    }
}

impl Error for Unread {}
