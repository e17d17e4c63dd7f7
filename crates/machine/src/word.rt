ghost use Rattle.std.specs.Prelude.{◌≡◌, ℕ, ◌/◌, ◌%◌, ◌^◌, ◌<◌};
ghost use Rattle.machine.specs.Words.{session_of, place_of, for_session, for_item, parsed};

use crate::answer::Reason;

// What a word begins.
#[derive(Clone, Copy, PartialEq, Eq, Debug)]
pub enum Op {
    Insert { place: u16 },
    Delete { place: u16 },
    Contains { place: u16 },
    Push { place: u16 },
    Pop,
}

// What a word asks of a session. Not an option of a beginning, since a step is asked for too.
#[derive(Clone, Copy, PartialEq, Eq, Debug)]
pub enum Kind {
    Step,
    Begin(Op),
}

// What a word asks for. Not an option of a session's word, since a tidy is asked for too.
#[derive(Clone, Copy, PartialEq, Eq, Debug)]
pub enum Word {
    Tidy,
    Of { session: u8, kind: Kind },
}

// So many bits of a word, from one on.
fn bits<const FROM: u32, const COUNT: u32>(w: u32) -> u32
    requires from { FROM < 32 }
    requires count { COUNT < 32 }
    ensures { result ≡ w / 2 ^ FROM % 2 ^ COUNT }
{
    (w >> FROM) % (1 << COUNT)
}

// The session that a word is for.
pub fn session_of(w: u32) -> u8
    ensures { result ≡ session_of w }
{
    bits::<24, 5>(w) as u8
}

// The place of the item that a word names.
pub fn place_of(w: u32) -> u16
    ensures { result ≡ place_of w }
{
    bits::<0, 16>(w) as u16
}

// A word for a session that has to be there, when the spare bits are zero.
fn for_session(spare: u32, session: u8, sessions: u8, kind: Kind) -> Result<Word, Reason>
    ensures { result ≡ for_session spare session sessions kind }
{
    if spare != 0 {
        return Err(Reason::SpareBits);
    }
    if session >= sessions {
        return Err(Reason::NoSession);
    }
    Ok(Word::Of { session, kind })
}

// The same with a place that has to be there.
fn for_item(
    spare: u32,
    session: u8,
    sessions: u8,
    place: u16,
    items: u16,
    op: Op,
) -> Result<Word, Reason>
    ensures { result ≡ for_item spare session sessions place items op }
{
    let word = for_session(spare, session, sessions, Kind::Begin(op))?;
    if place >= items {
        return Err(Reason::NoPlace);
    }
    Ok(word)
}

impl Word {
    #[tactic(auto, unfolding(crate::specs::Words::parsed))]
    pub fn parse(w: u32, sessions: u8, items: u16) -> Result<Word, Reason>
        ensures { result ≡ parsed w sessions items }
    {
        let session = session_of(w);
        let place = place_of(w);
        let plain = |kind: Kind| for_session(bits::<0, 24>(w), session, sessions, kind);
        let item = |op: Op| for_item(bits::<16, 8>(w), session, sessions, place, items, op);
        // The numbers of the format; an enum between them and the word would be a second table.
        match bits::<29, 3>(w) {
            0 => plain(Kind::Step),
            1 => item(Op::Insert { place }),
            2 => item(Op::Delete { place }),
            3 => item(Op::Contains { place }),
            4 => item(Op::Push { place }),
            5 => plain(Kind::Begin(Op::Pop)),
            6 if bits::<0, 29>(w) == 0 => Ok(Word::Tidy),
            6 => Err(Reason::SpareBits),
            _ => Err(Reason::Kind),
        }
    }
}
