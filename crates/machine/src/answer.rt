ghost use Rattle.std.specs.Prelude.{◌≡◌};
ghost use Rattle.machine.specs.Answers.{number, under_way, yes, no, refused, tidied};
ghost use Rattle.machine.specs.Codes.{Numbered, letter};
ghost use Rattle.machine.specs.Unmade.{unmade_reason};

use reclaim::Unmade;

// Why a word, a run or an opening is refused, with the number that stands for it in answers.
#[derive(Clone, Copy, PartialEq, Eq, Debug)]
pub enum Reason {
    Memory = 2,
    Sizes = 3,
    Kind = 5,
    SpareBits = 6,
    NoSession = 7,
    NoPlace = 8,
    OtherItems = 9,
    ShortAnswers = 10,
    Inside = 21,
    Outside = 22,
    NoCell = 23,
    InUse = 24,
}

impl Reason {
    // A cast of its own enum; a trait over all refusals would repeat it in each.
    pub fn code(self) -> u16
        ensures { result ≡ number self }
    {
        self as u16
    }
}

// A number that stands for no reason.
#[derive(Clone, Copy, PartialEq, Eq, Debug)]
pub struct NoReason;

// A table, since no cast makes a case of a number.
impl TryFrom<u16> for Reason {
    type Error = NoReason;

    ghost try_from_gives = { Numbered };

    fn try_from(code: u16) -> Result<Reason, NoReason> {
        Ok(match code {
            2 => Reason::Memory,
            3 => Reason::Sizes,
            5 => Reason::Kind,
            6 => Reason::SpareBits,
            7 => Reason::NoSession,
            8 => Reason::NoPlace,
            9 => Reason::OtherItems,
            10 => Reason::ShortAnswers,
            21 => Reason::Inside,
            22 => Reason::Outside,
            23 => Reason::NoCell,
            24 => Reason::InUse,
            _ => return Err(NoReason),
        })
    }
}

// Why there is no board when its reclaimer was not made.
impl From<Unmade> for Reason {
    ghost from_gives = { λ why reason. reason ≡ unmade_reason why };

    fn from(why: Unmade) -> Reason {
        match why {
            Unmade::Sizes => Reason::Sizes,
            Unmade::Memory => Reason::Memory,
        }
    }
}

#[derive(Clone, Copy, PartialEq, Eq, Debug)]
pub enum AnswerKind {
    UnderWay,
    Yes,
    No,
    Tidied,
    Refused,
}

impl AnswerKind {
    // Its letter in ASCII, of which no cast is made: the letters do not follow one another.
    pub fn letter(self) -> u8
        ensures { result ≡ letter self }
    {
        match self {
            AnswerKind::UnderWay => b'w',
            AnswerKind::Yes => b'y',
            AnswerKind::No => b'n',
            AnswerKind::Tidied => b't',
            AnswerKind::Refused => b'r',
        }
    }
}

// A record of a kind and a value, since each word has both in a caller's list: a rule of the project.
#[derive(Clone, Copy, PartialEq, Eq, Debug)]
pub struct Answer {
    pub kind: AnswerKind,
    pub value: u16,
}

// Each case with its value, one by one as the definitions list them.
impl Answer {
    pub fn under_way() -> Answer
        ensures { result ≡ under_way }
    {
        Answer::of(AnswerKind::UnderWay, 0)
    }

    pub fn yes(place: u16) -> Answer
        ensures { result ≡ yes place }
    {
        Answer::of(AnswerKind::Yes, place)
    }

    pub fn no() -> Answer
        ensures { result ≡ no }
    {
        Answer::of(AnswerKind::No, 0)
    }

    pub fn tidied(given: u16) -> Answer
        ensures { result ≡ tidied given }
    {
        Answer::of(AnswerKind::Tidied, given)
    }

    pub fn refused(why: Reason) -> Answer
        ensures { result ≡ refused why }
    {
        Answer::of(AnswerKind::Refused, why.code())
    }

    fn of(kind: AnswerKind, value: u16) -> Answer
        ensures kind { result.kind ≡ kind }
        ensures value { result.value ≡ value }
    {
        Answer { kind, value }
    }
}
