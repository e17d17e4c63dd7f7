// Words and answers as the tables show them.
use account::letter;
use machine::{Answer, AnswerKind, place_of, session_of};
use schedule::{Keyword, NoWordKind, WordKind};
use std::fmt;

fn kind_of(word: u32) -> Result<WordKind, NoWordKind> {
    WordKind::try_from((word / 0x2000_0000) as u8)
}

// The session of a word as a column.
#[derive(Clone, Copy)]
pub struct Who(pub u32);

impl fmt::Display for Who {
    fn fmt<W: fmt::Write>(&self, f: &mut fmt::Formatter<W>) -> fmt::Result {
        let session = session_of(self.0);
        match kind_of(self.0) {
            Ok(WordKind::Tidy) => f.write_str("- "),
            _ if session < 8 => write!(f, "{} ", letter(session)),
            _ => write!(f, "{session:<2}"),
        }
    }
}

// A word by name, with its item; one that has bits set which its kind does not use, in hexadecimal.
#[derive(Drop)]
pub struct Asked<'a> {
    pub word: u32,
    pub labels: &'a [String],
}

impl Asked<'_> {
    fn with_item<W: fmt::Write>(&self, kind: WordKind, f: &mut fmt::Formatter<W>) -> fmt::Result {
        let name = kind.name();
        let place = place_of(self.word);
        match self.labels.get(usize::from(place)) {
            Some(label) => write!(f, "{name} {label}"),
            None => write!(f, "{name} place {place}"),
        }
    }
}

impl fmt::Display for Asked<'_> {
    fn fmt<W: fmt::Write>(&self, f: &mut fmt::Formatter<W>) -> fmt::Result {
        let word = self.word;
        match kind_of(word) {
            Ok(kind @ WordKind::Tidy) if word % 0x2000_0000 == 0 => f.write_str(kind.name()),
            Ok(kind @ (WordKind::Step | WordKind::Pop)) if word % 0x0100_0000 == 0 => {
                f.write_str(kind.name())
            }
            Ok(kind @ (WordKind::Insert | WordKind::Delete | WordKind::Contains | WordKind::Push))
                if word / 65536 % 256 == 0 => self.with_item(kind, f),
            _ => write!(f, "{word:#010x}"),
        }
    }
}

// An answer in words; the value where it says something.
#[derive(Clone, Copy)]
pub struct Answered {
    pub answer: Answer,
    // whether a yes carries a place, which an answer alone does not say
    pub pops: bool,
}

impl fmt::Display for Answered {
    fn fmt<W: fmt::Write>(&self, f: &mut fmt::Formatter<W>) -> fmt::Result {
        let value = self.answer.value;
        match self.answer.kind {
            AnswerKind::UnderWay => f.write_str("under way"),
            AnswerKind::Yes if self.pops => write!(f, "yes {value}"),
            AnswerKind::Yes => f.write_str("yes"),
            AnswerKind::No => f.write_str("no"),
            AnswerKind::Tidied => write!(f, "tidied {value}"),
            AnswerKind::Refused => write!(f, "refused {value}"),
        }
    }
}
