// The parts of a schedule.
ghost use Rattle.std.specs.Prelude.{◌≡◌};
ghost use Rattle.schedule.specs.Counts.{words_of};

use items::ByteString;

// What one word line gives to the board.
#[derive(Clone, Copy, PartialEq, Eq, Debug)]
pub enum Act {
    Word(u32),
    // so many step words for a session
    Steps { session: u8, count: u32 },
    // step words until the session's operation completes
    Finish { session: u8 },
}

impl Act {
    // How many words the line counts for.
    pub fn words(self) -> u32
        ensures { result ≡ words_of self }
    {
        match self {
            Act::Word(_) | Act::Finish { .. } => 1,
            Act::Steps { count, .. } => count,
        }
    }
}

// A word line, with its number in the text.
#[derive(Clone, Copy, PartialEq, Eq, Debug)]
pub struct Line {
    pub number: usize,
    pub act: Act,
}

#[derive(Drop)]
pub enum Items {
    Numbers(Vec<u32>),
    Bytes(Vec<ByteString>),
}
