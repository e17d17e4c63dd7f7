// The words of a schedule by name, and the number of each.
ghost use Rattle.std.specs.Prelude.{◌≡◌, ℕ, Ok};
ghost use Rattle.machine.specs.Words.{parsed};
ghost use Rattle.schedule.specs.Words.{number_of, Numbered, keyword, encoded, Fitting, meant};

use crate::keyword::Keyword;

// What a word asks for, with the number that the word carries in its top bits.
#[derive(Clone, Copy, PartialEq, Eq, Debug)]
pub enum WordKind {
    Step = 0,
    Insert = 1,
    Delete = 2,
    Contains = 3,
    Push = 4,
    Pop = 5,
    Tidy = 6,
}

impl WordKind {
    pub fn number(self) -> u8
        ensures { result ≡ number_of self }
    {
        self as u8
    }
}

// A number that stands for no kind of word.
#[derive(Clone, Copy, PartialEq, Eq, Debug)]
pub struct NoWordKind;

// A table, since no cast makes a case of a number.
impl TryFrom<u8> for WordKind {
    type Error = NoWordKind;

    ghost try_from_gives = { Numbered };

    fn try_from(number: u8) -> Result<WordKind, NoWordKind> {
        Ok(match number {
            0 => WordKind::Step,
            1 => WordKind::Insert,
            2 => WordKind::Delete,
            3 => WordKind::Contains,
            4 => WordKind::Push,
            5 => WordKind::Pop,
            6 => WordKind::Tidy,
            _ => return Err(NoWordKind),
        })
    }
}

impl Keyword for WordKind {
    ghost spelled = { keyword };

    #[tactic(auto, using(crate::proofs::Listed::kinds))]
    fn all() -> &'static [WordKind] {
        &[
            WordKind::Step,
            WordKind::Insert,
            WordKind::Delete,
            WordKind::Contains,
            WordKind::Push,
            WordKind::Pop,
            WordKind::Tidy,
        ]
    }

    fn name(self) -> &'static str {
        match self {
            WordKind::Step => "step",
            WordKind::Insert => "insert",
            WordKind::Delete => "delete",
            WordKind::Contains => "contains",
            WordKind::Push => "push",
            WordKind::Pop => "pop",
            WordKind::Tidy => "tidy",
        }
    }
}

// The word of a kind for a session, of which five bits count, and an item's place.
#[tactic(auto, using(crate::proofs::Encodings::parsed_encoded))]
pub fn encode(kind: WordKind, session: u8, place: u16) -> u32
    ensures number { result ≡ encoded kind session place }
    ensures back { (sessions items : ℕ) → Fitting kind session place sessions items → parsed result sessions items ≡ Ok (meant kind session place) }
{
    u32::from(kind.number()) * 0x2000_0000
        + u32::from(session % 32) * 0x0100_0000
        + u32::from(place)
}
